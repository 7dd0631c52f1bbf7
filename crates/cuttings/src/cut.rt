// Lines `cut SUITE KEY NONCE DATA MESSAGE CIPHERTEXT TAG ROWS SCRIPT..`: the answers stand on the line.
ghost use Rattle.std.specs.Prelude.{◌≤◌, length};

use crate::numbers;
use crate::script::Script;
use crate::steps::{BEFORE, Call, Case, Run};
use differences::tally::Tally;
use lists::text;
use lists::text::Spelled;

// The longest message, the byte around it, and how many there are with it.
const LONGEST: usize = 96;

const GUARD: u8 = 0xa5;

const ROOM: usize = 128;

// Three fields one after the other in one array, since together they may not be longer, and where each ends.
#[derive(Clone, Copy)]
struct Fields {
    bytes: [u8; 256],
    one: usize,
    two: usize,
    three: usize,
}

// Key, nonce and data, then message, ciphertext and tag.
#[derive(Clone, Copy)]
struct Sealing {
    suite: u8,
    inputs: Fields,
    texts: Fields,
    rows: usize,
}

// The bytes between two places, none where these are too many or not there.
fn part(s: &[u8], from: usize, to: usize) -> &[u8]
    ensures { length result.now ≤ LONGEST }
{
    match s.get(from..to) {
        Some(part) if part.len() <= LONGEST => part,
        _ => &[],
    }
}

// A room with a text, and guards around it: three lines here and in `vectors`, whose rooms and places are others.
fn laid_out(text: &[u8]) -> [u8; ROOM]
    requires { length text.now ≤ LONGEST }
{
    let mut room = [GUARD; ROOM];
    room[BEFORE..BEFORE + text.len()].copy_from_slice(text);
    room
}

impl Fields {
    fn read(fields: [&[u8]; 3]) -> Option<Fields> {
        let one = Spelled::nothing().with_field(fields[0])?;
        let two = one.with_field(fields[1])?;
        let three = two.with_field(fields[2])?;
        // A local of its own: from field to field the checker covers no array.
        let bytes = three.bytes;
        Some(Fields {
            bytes,
            one: one.length,
            two: two.length,
            three: three.length,
        })
    }

    fn first(&self) -> &[u8]
        ensures { length result.now ≤ LONGEST }
    {
        part(&self.bytes, 0, self.one)
    }

    fn second(&self) -> &[u8]
        ensures { length result.now ≤ LONGEST }
    {
        part(&self.bytes, self.one, self.two)
    }

    fn third(&self) -> &[u8] {
        part(&self.bytes, self.two, self.three)
    }
}

impl Sealing {
    fn read(line: &[u8]) -> Option<Sealing> {
        let field = |k: usize| text::field(line, k);
        Some(Sealing {
            suite: numbers::byte_at(line, 1)?,
            inputs: Fields::read([field(2), field(3), field(4)])?,
            texts: Fields::read([field(5), field(6), field(7)])?,
            rows: numbers::at(line, 8)?,
        })
    }

    // Whether the script takes the whole message, and the ciphertext is as long.
    fn fits(&self, taken: usize) -> bool {
        taken <= LONGEST && self.texts.one == taken && self.texts.two == 2 * taken
    }

    fn begun(&self, line: usize, tally: Tally<Call>) -> Run {
        let inputs = self.inputs;
        let state = pieces::begin(self.suite, inputs.first(), inputs.second(), inputs.third());
        let kept = inputs.bytes == self.inputs.bytes;
        Run::begun(state, 0, kept, line, tally)
    }

    // None where the tag is not sixteen bytes.
    fn replayed(&self, script: &Script, line: usize, tally: Tally<Call>) -> Option<Tally<Call>> {
        let tag = self.texts.third().try_into().ok()?;
        let plain = laid_out(self.texts.first());
        let mut room = plain;
        let case = Case {
            line,
            plain: &plain,
            sealed: &laid_out(self.texts.second()),
            tag,
            rows: self.rows,
        };
        Some(case.replayed(script, self.begun(line, tally), &mut room))
    }
}

// None where the line is no case.
pub fn replayed(
    text: &[u8],
    script: &Script,
    line: usize,
    tally: Tally<Call>,
) -> Option<Tally<Call>> {
    let sealing = Sealing::read(text)?;
    if !sealing.fits(script.taken) {
        return None;
    }
    sealing.replayed(script, line, tally)
}
