// What a call gave, what of it differs from what was wanted, and the count of it all.
ghost use Rattle.std.specs.Prelude.{◌≡◌};
ghost use Rattle.std.specs.Prelude.{Some};
ghost use Rattle.differences.specs.Words.{what_word};
ghost use Rattle.differences.specs.Tally.{first_difference, none, with_case, with_difference, with_call, with_bad_line, with_a_case, together};

use std::fmt;

// What a call answered, and whether its tag (an opening gives none), its buffer, with the bytes around it, and its inputs are then as they
// should be.
#[derive(Clone, Copy)]
pub struct Seen {
    pub number: u8,
    pub rows: usize,
    pub tag: bool,
    pub buffer: bool,
    pub inputs: bool,
}

// What differs.
#[derive(Clone, Copy, PartialEq, Eq)]
pub enum What {
    Number,
    Tag,
    Rows,
    Buffer,
    Inputs,
    Form,
}

impl fmt::Display for What {
    ghost output = { λ what. Some (what_word what) };

    fn fmt<W: fmt::Write>(&self, f: &mut fmt::Formatter<W>) -> fmt::Result {
        f.write_str(match self {
            What::Number => "number",
            What::Tag => "tag",
            What::Rows => "rows",
            What::Buffer => "buffer",
            What::Inputs => "inputs",
            What::Form => "form",
        })
    }
}

impl Seen {
    // The first thing that differs.
    #[tactic(auto, unfolding(crate::specs::Tally::first_difference))]
    pub fn differs(self, number: u8, rows: usize) -> Option<What>
        ensures { result ≡ first_difference self number rows }
    {
        if self.number != number {
            return Some(What::Number);
        }
        if !self.tag {
            return Some(What::Tag);
        }
        if self.rows != rows {
            return Some(What::Rows);
        }
        if !self.buffer {
            return Some(What::Buffer);
        }
        if !self.inputs {
            return Some(What::Inputs);
        }
        None
    }
}

// Where something differed, and what. A line that is no case has no call.
#[derive(Clone, Copy)]
pub struct Difference<C> {
    pub line: usize,
    pub call: Option<C>,
    pub what: What,
}

impl<C: fmt::Display> fmt::Display for Difference<C> {
    fn fmt<W: fmt::Write>(&self, f: &mut fmt::Formatter<W>) -> fmt::Result {
        write!(f, "line {}: {}", self.line, self.what)?;
        match &self.call {
            Some(call) if self.what != What::Form => write!(f, " in {call}"),
            _ => Ok(()),
        }
    }
}

// Cases and calls so far, how many differ, and the first that does. `C` is what the program calls.
#[derive(Clone, Copy)]
pub struct Tally<C> {
    pub cases: usize,
    pub calls: usize,
    pub differ: usize,
    pub first: Option<Difference<C>>,
}

// A count stops at the greatest number and never wraps.
impl<C: Copy> Tally<C> {
    pub fn new() -> Tally<C>
        ensures { result ≡ none }
    {
        Tally {
            cases: 0,
            calls: 0,
            differ: 0,
            first: None,
        }
    }

    // One case more.
    pub fn with_case(mut self) -> Tally<C>
        ensures { result ≡ with_case self }
    {
        self.cases = self.cases.saturating_add(1);
        self
    }

    // One difference more, kept if it is the first.
    #[tactic(auto, unfolding(crate::specs::Tally::with_difference))]
    fn with_difference(mut self, difference: Difference<C>) -> Tally<C>
        ensures { result ≡ with_difference self difference }
    {
        if self.differ > 0 {
            self.differ = self.differ.saturating_add(1);
            return self;
        }
        Tally {
            differ: 1,
            first: Some(difference),
            ..self
        }
    }

    // One call more, and what differed in it.
    #[tactic(auto, unfolding(crate::specs::Tally::with_call))]
    pub fn with_call(mut self, line: usize, call: C, what: Option<What>) -> Tally<C>
        ensures { result ≡ with_call self line call what }
    {
        self.calls = self.calls.saturating_add(1);
        let Some(what) = what else {
            return self;
        };
        self.with_difference(Difference {
            line,
            call: Some(call),
            what,
        })
    }

    // A line that is no case.
    pub fn with_bad_line(self, line: usize) -> Tally<C>
        ensures { result ≡ with_bad_line self line }
    {
        self.with_difference(Difference {
            line,
            call: None,
            what: What::Form,
        })
    }

    // A list that has no case, or that could not be read, compares nothing. It is told at line 0, since lines count from one.
    #[tactic(auto, unfolding(crate::specs::Tally::with_a_case))]
    pub fn with_a_case(self) -> Tally<C>
        ensures { result ≡ with_a_case self }
    {
        if self.cases == 0 {
            return self.with_bad_line(0);
        }
        self
    }

    // The counts of two lists. The first difference is a list's own, and the other's is left out.
    pub fn and(mut self, other: Tally<C>) -> Tally<C>
        ensures { result ≡ together self other }
    {
        self.cases = self.cases.saturating_add(other.cases);
        self.calls = self.calls.saturating_add(other.calls);
        self.differ = self.differ.saturating_add(other.differ);
        self
    }
}
