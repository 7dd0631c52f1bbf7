// Vectors: each is sealed, opened, and opened with one bit changed in each part that is not empty.
ghost use Rattle.std.specs.Prelude.{◌≡◌, ◌++◌, ◌≤◌, ◌<◌, drop, length, replicate};

use differences::tally::{Seen, Tally, What};
use lists::text;
use lists::text::Spelled;
use std::fmt;

// The bytes of all parts, and of the longest.
const BYTES: usize = 256;

const LONGEST: usize = 64;

// The byte around a buffer, how many stand before it, and how many there are with the longest buffer.
const GUARD: u8 = 0xa5;

const BEFORE: usize = 8;

const ROOM: usize = 80;

// The library's number of a wrong tag.
const WRONG_TAG: u8 = 7;

// The parts of a vector, in the order of a line.
#[derive(Clone, Copy)]
pub enum Part {
    Key,
    Nonce,
    Data,
    Message,
    Ciphertext,
    Tag,
}

const PARTS: usize = 6;

// Every part that an opening takes.
const INPUTS: [Part; 5] = [
    Part::Key,
    Part::Nonce,
    Part::Data,
    Part::Ciphertext,
    Part::Tag,
];

impl Part {
    fn place(self) -> usize
        ensures { result < 6 }
    {
        match self {
            Part::Key => 0,
            Part::Nonce => 1,
            Part::Data => 2,
            Part::Message => 3,
            Part::Ciphertext => 4,
            Part::Tag => 5,
        }
    }
}

impl fmt::Display for Part {
    fn fmt<W: fmt::Write>(&self, f: &mut fmt::Formatter<W>) -> fmt::Result {
        f.write_str(match self {
            Part::Key => "key",
            Part::Nonce => "nonce",
            Part::Data => "data",
            Part::Message => "message",
            Part::Ciphertext => "ciphertext",
            Part::Tag => "tag",
        })
    }
}

#[derive(Clone, Copy)]
pub enum Call {
    Sealing,
    Opening,
    Changed(Part),
}

impl fmt::Display for Call {
    fn fmt<W: fmt::Write>(&self, f: &mut fmt::Formatter<W>) -> fmt::Result {
        match self {
            Call::Sealing => write!(f, "sealing"),
            Call::Opening => write!(f, "opening"),
            Call::Changed(part) => write!(f, "opening with a changed {part}"),
        }
    }
}

// A buffer with this text, and guards around it.
fn laid_out(text: &[u8]) -> [u8; ROOM]
    requires { length text.now ≤ 64 }
    ensures { result ≡ replicate 8 165 ++ (text.now ++ drop (length text.now) (replicate 72 165)) }
{
    let mut room = [GUARD; ROOM];
    room[BEFORE..BEFORE + text.len()].copy_from_slice(text);
    room
}

// With this factor the cases of lengths.txt change every bit of the tag, and in each suite every byte of the key.
const SPREAD: usize = 927;

// Which of so many bits is changed in the nth case: the first, the last, and then ones between.
fn chosen(n: usize, bits: usize) -> usize
    requires { 0 < bits }
    ensures { result < bits }
{
    let step = n / 2 % 4096 * SPREAD % bits;
    if n % 2 == 0 { step } else { bits - 1 - step }
}

// A vector: the suite, the parts one after the other in one array, since together they may not be longer, where each starts and the last ends, and
// the number of rows.
#[derive(Clone, Copy)]
struct Vector {
    suite: u8,
    bytes: [u8; BYTES],
    cuts: [usize; 7],
    rows: usize,
}

impl Vector {
    // The vector on a line.
    fn read(line: &[u8]) -> Option<Vector> {
        let suite = u8::try_from(text::decimal(text::field(line, 0))?).ok()?;
        let mut parts = Spelled::nothing();
        let mut cuts = [0usize; 7];
        // An index: a part is a field of the line and a place of the cuts.
        for k in 0..PARTS {
            parts = parts.with_field(text::field(line, k + 1))?;
            cuts[k + 1] = parts.length;
        }
        let rows = text::decimal(text::field(line, 7))?;
        text::ends(line, 8).then_some(Vector {
            suite,
            bytes: parts.bytes,
            cuts,
            rows,
        })
    }

    // A part, none of it where it is too long.
    fn part(&self, part: Part) -> &[u8]
        ensures { length result.now ≤ 64 }
    {
        let k = part.place();
        match self.bytes.get(self.cuts[k]..self.cuts[k + 1]) {
            Some(s) if s.len() <= LONGEST => s,
            _ => &[],
        }
    }

    fn sealing(&self) -> Option<What> {
        let kept = self.bytes;
        let message = self.part(Part::Message);
        let mut room = laid_out(message);
        let answer = deoxys::seal(
            self.suite,
            self.part(Part::Key),
            self.part(Part::Nonce),
            self.part(Part::Data),
            &mut room[BEFORE..BEFORE + message.len()],
        );
        let seen = Seen {
            number: answer.number,
            rows: answer.rows,
            tag: answer.tag.as_slice() == self.part(Part::Tag),
            buffer: room == laid_out(self.part(Part::Ciphertext)),
            inputs: self.bytes == kept,
        };
        seen.differs(0, self.rows)
    }

    fn opening(&self, number: u8, wanted: [u8; ROOM]) -> Option<What> {
        let kept = self.bytes;
        let ciphertext = self.part(Part::Ciphertext);
        let mut room = laid_out(ciphertext);
        let answer = deoxys::open(
            self.suite,
            self.part(Part::Key),
            self.part(Part::Nonce),
            self.part(Part::Data),
            &mut room[BEFORE..BEFORE + ciphertext.len()],
            self.part(Part::Tag),
        );
        let seen = Seen {
            number: answer.number,
            rows: answer.rows,
            tag: true,
            buffer: room == wanted,
            inputs: self.bytes == kept,
        };
        seen.differs(number, self.rows)
    }

    // A good opening leaves the message.
    fn opened(&self) -> Option<What> {
        self.opening(0, laid_out(self.part(Part::Message)))
    }

    // A wrong tag leaves zeros.
    fn refused(&self) -> Option<What> {
        let zeros = [0u8; LONGEST];
        let length = self.part(Part::Ciphertext).len();
        self.opening(WRONG_TAG, laid_out(&zeros[..length]))
    }

    // The nth case with one bit of a part changed, none where the part is empty.
    fn changed(mut self, part: Part, n: usize) -> Option<Vector> {
        let k = part.place();
        let from = self.cuts[k];
        let to = self.cuts[k + 1];
        let bytes = self.bytes.get_mut(from..to)?;
        if bytes.is_empty() {
            return None;
        }
        let bit = chosen(n, 8 * bytes.len());
        bytes[bit / 8] ^= 128 >> (bit % 8);
        Some(self)
    }
}

// The vector on a line: sealed, opened, and opened with changes.
pub fn replayed(text: &[u8], line: usize, tally: Tally<Call>) -> Tally<Call> {
    let Some(vector) = Vector::read(text) else {
        return tally.with_bad_line(line).with_case();
    };
    let mut t = tally.with_call(line, Call::Sealing, vector.sealing());
    t = t.with_call(line, Call::Opening, vector.opened());
    for part in INPUTS {
        if let Some(other) = vector.changed(part, tally.cases) {
            t = t.with_call(line, Call::Changed(part), other.refused());
        }
    }
    t.with_case()
}
