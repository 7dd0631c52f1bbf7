// Lines `stage SUITE KEY NONCE DATA NUMBER SCRIPT..`: lengths on bytes that follow the pattern, and the number of begin. The other answers are
// those of the single call over the bytes that are to be taken.
ghost use Rattle.std.specs.Prelude.{◌+◌, ◌≤◌};

use crate::numbers;
use crate::script::Script;
use crate::steps::{BEFORE, Call, Case, Run};
use differences::pattern;
use differences::tally::Tally;

// The key and the nonce are bytes of the data too, from these places on.
const KEY: usize = 0;

const NONCE: usize = 40;

// Above the greatest total, with bytes that no call may touch.
const ROOM: usize = 1049600;

#[derive(Clone, Copy)]
struct Attempt {
    suite: u8,
    key: usize,
    nonce: usize,
    data: usize,
    number: u8,
}

// So many bytes from a place on; none where there are not so many. A line here and in `refusals`: docs/DECISIONS.md, Replaying lists.
fn part(s: &[u8], from: usize, n: usize) -> &[u8] {
    s.get(from..from.saturating_add(n)).unwrap_or(&[])
}

// A function of its own: tried where the room is made, its proof unfolds the million bytes and doesn't close.
fn fill(room: &mut [u8; ROOM]) {
    pattern::fill(room, pattern::BUFFER);
}

impl Attempt {
    fn read(line: &[u8]) -> Option<Attempt> {
        Some(Attempt {
            suite: numbers::byte_at(line, 1)?,
            key: numbers::at(line, 2)?,
            nonce: numbers::at(line, 3)?,
            data: numbers::at(line, 4)?,
            number: numbers::byte_at(line, 5)?,
        })
    }

    // Key, nonce and data.
    fn inputs<'a>(&self, source: &'a [u8]) -> [&'a [u8]; 3] {
        [
            part(source, KEY, self.key),
            part(source, NONCE, self.nonce),
            part(source, 0, self.data),
        ]
    }

    fn begun(&self, line: usize, tally: Tally<Call>, source: &[u8; ROOM]) -> Run {
        let [key, nonce, data] = self.inputs(source);
        let state = pieces::begin(self.suite, key, nonce, data);
        let inputs = pattern::stayed(source, 0, pattern::BUFFER);
        Run::begun(state, self.number, inputs, line, tally)
    }

    // The single call.
    fn sealed(&self, source: &[u8], message: &mut [u8]) -> deoxys::Sealed {
        let [key, nonce, data] = self.inputs(source);
        deoxys::seal(self.suite, key, nonce, data, message)
    }

    // The single call over the bytes that the script takes leaves the room as it is in the end. A function of its own, as `fill`.
    fn scripted(
        &self,
        script: &Script,
        run: Run,
        line: usize,
        plain: &[u8; ROOM],
        sealed: &mut [u8; ROOM],
        room: &mut [u8; ROOM],
    ) -> Tally<Call>
        requires { BEFORE + script.now.taken ≤ ROOM }
    {
        let answer = self.sealed(plain, &mut sealed[BEFORE..BEFORE + script.taken]);
        // A local of its own: from field to field the checker covers no array.
        let tag = answer.tag;
        let case = Case {
            line,
            plain,
            sealed,
            tag,
            rows: answer.rows,
        };
        case.replayed(script, run, room)
    }

    fn replayed(&self, script: &Script, line: usize, tally: Tally<Call>) -> Tally<Call>
        requires { BEFORE + script.now.taken ≤ ROOM }
    {
        let mut plain = [0u8; ROOM];
        fill(&mut plain);
        let mut sealed = plain;
        let mut room = plain;
        let run = self.begun(line, tally, &plain);
        self.scripted(script, run, line, &plain, &mut sealed, &mut room)
    }
}

// None where the line is no case.
pub fn replayed(
    text: &[u8],
    script: &Script,
    line: usize,
    tally: Tally<Call>,
) -> Option<Tally<Call>> {
    let attempt = Attempt::read(text)?;
    if script.taken > ROOM - BEFORE {
        return None;
    }
    Some(attempt.replayed(script, line, tally))
}
