// The steps of a script, one after the other on the state that the one before handed back, and each compared.
use crate::script::{Action, Script, Step};
use differences::tally::{Seen, Tally};
use pieces::Pieces;
use std::fmt;

#[derive(Clone, Copy)]
pub enum Call {
    Beginning,
    Taking,
    Finishing,
}

impl fmt::Display for Call {
    fn fmt<W: fmt::Write>(&self, f: &mut fmt::Formatter<W>) -> fmt::Result {
        f.write_str(match self {
            Call::Beginning => "beginning",
            Call::Taking => "taking a piece",
            Call::Finishing => "finishing",
        })
    }
}

// Where the message starts in a room.
pub const BEFORE: usize = 16;

// A script's line, the room as it is at first and in the end, and the tag and the rows of the single call.
#[derive(Clone, Copy)]
pub struct Case<'a> {
    pub line: usize,
    pub plain: &'a [u8],
    pub sealed: &'a [u8],
    pub tag: [u8; 16],
    pub rows: usize,
}

// The state, where in the room the next piece starts, and the count.
#[derive(Clone, Copy)]
pub struct Run {
    state: Pieces,
    at: usize,
    tally: Tally<Call>,
}

impl Run {
    // After begin, which is answered by the number that the state has.
    pub fn begun(state: Pieces, number: u8, inputs: bool, line: usize, tally: Tally<Call>) -> Run {
        let seen = Seen {
            number: state.number,
            rows: 0,
            tag: true,
            buffer: true,
            inputs,
        };
        Run {
            state,
            at: BEFORE,
            tally: tally.with_call(line, Call::Beginning, seen.differs(number, 0)),
        }
    }

    // A call that is to be refused hands the state back as it was.
    fn kept(&self, number: u8, after: Pieces) -> bool {
        number == 0 || self.state == after
    }

    // A line whose piece goes past the room is no case.
    fn past(mut self, line: usize) -> Run {
        self.tally = self.tally.with_bad_line(line);
        self
    }
}

impl Case<'_> {
    // Whether the bytes to `end` are those of the sealed room, and the others are as they were.
    fn holds(&self, room: &[u8], end: usize) -> bool {
        let (Some((taken, rest)), Some((sealed, _)), Some((_, plain))) = (
            room.split_at_checked(end),
            self.sealed.split_at_checked(end),
            self.plain.split_at_checked(end),
        ) else {
            return false;
        };
        taken == sealed && rest == plain
    }

    // The piece is the next bytes of the message. One that is refused is tried again, or a part of it.
    fn take(&self, run: Run, size: usize, number: u8, room: &mut [u8]) -> Run {
        let end = run.at.saturating_add(size);
        let Some(piece) = room.get_mut(run.at..end) else {
            return run.past(self.line);
        };
        let answer = run.state.take(piece);
        let at = if number == 0 { end } else { run.at };
        let seen = Seen {
            number: answer.number,
            rows: 0,
            tag: true,
            buffer: self.holds(room, at),
            inputs: run.kept(number, answer.pieces),
        };
        let what = seen.differs(number, 0);
        Run {
            state: answer.pieces,
            at,
            tally: run.tally.with_call(self.line, Call::Taking, what),
        }
    }

    // The wanted tag and rows; zeros and none from a finish that is to be refused.
    fn wanted(&self, number: u8) -> ([u8; 16], usize) {
        if number == 0 {
            return (self.tag, self.rows);
        }
        ([0; 16], 0)
    }

    fn finish(&self, run: Run, number: u8, room: &[u8]) -> Run {
        let answer = run.state.finish();
        let (tag, rows) = self.wanted(number);
        let seen = Seen {
            number: answer.number,
            rows: answer.rows,
            tag: answer.tag == tag,
            buffer: self.holds(room, run.at),
            inputs: run.kept(number, answer.pieces),
        };
        let what = seen.differs(number, rows);
        Run {
            state: answer.pieces,
            at: run.at,
            tally: run.tally.with_call(self.line, Call::Finishing, what),
        }
    }

    fn step(&self, run: Run, step: Step, room: &mut [u8]) -> Run {
        match step.action {
            Action::Piece(size) => self.take(run, size, step.number, room),
            Action::Finish => self.finish(run, step.number, room),
        }
    }

    // Every step of a script. The room holds the message as `plain` has it.
    pub fn replayed(&self, script: &Script, mut run: Run, room: &mut [u8]) -> Tally<Call> {
        for step in script.steps.iter().flatten() {
            run = self.step(run, *step, room);
        }
        run.tally
    }
}
