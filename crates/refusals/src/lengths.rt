// Calls with the lengths that a line gives, on bytes that follow the pattern.
ghost use Rattle.std.specs.Prelude.{◌≤◌};

use differences::pattern;
use differences::tally::{Seen, Tally, What};
use lists::text;
use lists::text::Spelled;
use std::fmt;

// The greatest length that is not refused, one byte more, and bytes that no call may touch.
pub const ROOM: usize = 1048592;

// The key, the nonce and the tag are bytes of the data too, from these places on.
const KEY: usize = 0;

const NONCE: usize = 40;

const TAG: usize = 64;

// The library's number of a wrong tag.
const WRONG_TAG: u8 = 7;

#[derive(Clone, Copy)]
pub enum Call {
    Sealing,
    Opening,
}

impl fmt::Display for Call {
    fn fmt<W: fmt::Write>(&self, f: &mut fmt::Formatter<W>) -> fmt::Result {
        f.write_str(match self {
            Call::Sealing => "sealing",
            Call::Opening => "opening",
        })
    }
}

fn number(line: &[u8], k: usize) -> Option<usize> {
    text::decimal(text::field(line, k))
}

// A line each here and in `cuttings`, as what takes so many bytes below: docs/DECISIONS.md, Replaying lists.
fn byte(line: &[u8], k: usize) -> Option<u8> {
    u8::try_from(number(line, k)?).ok()
}

// A suite, lengths, and the number and the rows that are wanted.
#[derive(Clone, Copy)]
struct Attempt {
    suite: u8,
    key: usize,
    nonce: usize,
    data: usize,
    message: usize,
    number: u8,
    rows: usize,
    ghost fits: { message ≤ 1048592 },
}

impl Attempt {
    // Suite and lengths are fields 1 to 5; the wanted number and rows stand at `wanted`, and nothing after `fields` fields. None where the
    // message has no room.
    fn read(line: &[u8], wanted: usize, fields: usize) -> Option<Attempt>
        requires { wanted ≤ 7 }
    {
        let message = number(line, 5)?;
        if message > ROOM || !text::ends(line, fields) {
            return None;
        }
        Some(Attempt {
            suite: byte(line, 1)?,
            key: number(line, 2)?,
            nonce: number(line, 3)?,
            data: number(line, 4)?,
            message,
            number: byte(line, wanted)?,
            rows: number(line, wanted + 1)?,
        })
    }
}

// The tag that a field spells.
fn tag_of(field: &[u8]) -> Option<[u8; 16]> {
    let spelled = Spelled::nothing().with_field(field)?;
    if spelled.length != 16 {
        return None;
    }
    spelled.bytes.first_chunk().copied()
}

// The data, which no call may change, and the buffer.
#[derive(Drop)]
pub struct Rooms<'a> {
    pub data: &'a [u8; ROOM],
    pub buffer: &'a mut [u8; ROOM],
}

// So many bytes from a place on; none where there are not so many.
fn taken(s: &[u8], from: usize, n: usize) -> &[u8] {
    s.get(from..from.saturating_add(n)).unwrap_or(&[])
}

impl Rooms<'_> {
    fn sealed(&mut self, a: Attempt, tag: [u8; 16]) -> Seen {
        // Two parts of the rooms, each lent by itself, here and below.
        let data = self.data;
        let buffer = &mut *self.buffer;
        let answer = deoxys::seal(
            a.suite,
            taken(data, KEY, a.key),
            taken(data, NONCE, a.nonce),
            taken(data, 0, a.data),
            &mut buffer[..a.message],
        );
        Seen {
            number: answer.number,
            rows: answer.rows,
            tag: answer.tag == tag,
            buffer: pattern::stayed(buffer, a.message, pattern::BUFFER),
            inputs: pattern::stayed(data, 0, pattern::DATA),
        }
    }

    fn opened(&mut self, a: Attempt, tag: &[u8]) -> Seen {
        let data = self.data;
        let buffer = &mut *self.buffer;
        let answer = deoxys::open(
            a.suite,
            taken(data, KEY, a.key),
            taken(data, NONCE, a.nonce),
            taken(data, 0, a.data),
            &mut buffer[..a.message],
            tag,
        );
        Seen {
            number: answer.number,
            rows: answer.rows,
            tag: true,
            buffer: pattern::stayed(buffer, a.message, pattern::BUFFER),
            inputs: pattern::stayed(data, 0, pattern::DATA),
        }
    }

    fn refused_sealing(&mut self, a: Attempt) -> Option<What> {
        pattern::fill(self.buffer, pattern::BUFFER);
        let mut seen = self.sealed(a, [0u8; 16]);
        seen.buffer = pattern::stayed(self.buffer, 0, pattern::BUFFER);
        seen.differs(a.number, a.rows)
    }

    // A wrong tag leaves zeros, every other refusal the buffer as it was.
    fn refused_opening(&mut self, a: Attempt, tag: &[u8]) -> Option<What> {
        pattern::fill(self.buffer, pattern::BUFFER);
        let mut seen = self.opened(a, tag);
        if a.number == WRONG_TAG {
            seen.buffer = seen.buffer && pattern::zeros(&self.buffer[..a.message]);
        } else {
            seen.buffer = pattern::stayed(self.buffer, 0, pattern::BUFFER);
        }
        seen.differs(a.number, a.rows)
    }

    fn limited_sealing(&mut self, a: Attempt, sum: usize, tag: [u8; 16]) -> Option<What> {
        pattern::fill(self.buffer, pattern::BUFFER);
        let mut seen = self.sealed(a, tag);
        seen.buffer = seen.buffer && pattern::checksum(&self.buffer[..a.message]) == sum;
        seen.differs(a.number, a.rows)
    }

    // What sealing left in the buffer is opened, or refused with the same number.
    fn limited_opening(&mut self, a: Attempt, tag: [u8; 16]) -> Option<What> {
        let mut seen = self.opened(a, &tag);
        seen.buffer = pattern::stayed(self.buffer, 0, pattern::BUFFER);
        seen.differs(a.number, a.rows)
    }

    // A line `seal SUITE KEY NONCE DATA MESSAGE NUMBER ROWS`.
    fn seal_line(&mut self, text: &[u8], line: usize, tally: Tally<Call>) -> Option<Tally<Call>> {
        let a = Attempt::read(text, 6, 8)?;
        Some(tally.with_call(line, Call::Sealing, self.refused_sealing(a)))
    }

    // A line `open SUITE KEY NONCE DATA CIPHERTEXT TAG NUMBER ROWS`.
    fn open_line(&mut self, text: &[u8], line: usize, tally: Tally<Call>) -> Option<Tally<Call>> {
        let a = Attempt::read(text, 7, 9)?;
        let data = self.data;
        let tag = taken(data, TAG, number(text, 6)?);
        Some(tally.with_call(line, Call::Opening, self.refused_opening(a, tag)))
    }

    // A line `both SUITE KEY NONCE DATA MESSAGE NUMBER ROWS SUM TAG`: sealed, and what that left opened.
    fn both_line(&mut self, text: &[u8], line: usize, tally: Tally<Call>) -> Option<Tally<Call>> {
        let a = Attempt::read(text, 6, 10)?;
        let sum = number(text, 8)?;
        let tag = tag_of(text::field(text, 9))?;
        let t = tally.with_call(line, Call::Sealing, self.limited_sealing(a, sum, tag));
        Some(t.with_call(line, Call::Opening, self.limited_opening(a, tag)))
    }

    // The case on a line: its first word says what is called.
    pub fn replayed(&mut self, text: &[u8], line: usize, tally: Tally<Call>) -> Tally<Call> {
        let replayed = match text::field(text, 0) {
            b"seal" => self.seal_line(text, line, tally),
            b"open" => self.open_line(text, line, tally),
            b"both" => self.both_line(text, line, tally),
            _ => None,
        };
        replayed.unwrap_or(tally.with_bad_line(line)).with_case()
    }
}
