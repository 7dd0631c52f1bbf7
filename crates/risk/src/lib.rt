// The risk tables of a sealing and of an opening: what each block cipher call is for, from the suite and the two lengths alone.

#![tactic(auto)]

ghost use Rattle.std.specs.Prelude.{◌≡◌, ◌*◌, ◌<◌, ◌≤◌, length, slice_get, Some, IsSome};
ghost use Rattle.octets.specs.Octets.{blocks_of};
ghost use Rattle.suites.specs.Numbers.{answer_number};
ghost use Rattle.risk.specs.Labels.{
  block_label,
  tag_label,
  keystream_labels,
  labels,
  opening_labels,
  refused,
  risk_table,
  labels_of,
  table_of,
};
ghost use Rattle.risk.specs.Words.{kind_word, direction_word, label_text};

use std::fmt;
use suites::Refused;

// What a block cipher call is for.
#[derive(Clone, Copy, PartialEq, Eq)]
pub enum Kind {
    Data,
    Message,
    Tag,
    Keystream,
}

impl fmt::Display for Kind {
    ghost output = { λ kind. Some (kind_word kind) };

    fn fmt<W: fmt::Write>(&self, f: &mut fmt::Formatter<W>) -> fmt::Result {
        f.write_str(match self {
            Kind::Data => "data",
            Kind::Message => "message",
            Kind::Tag => "tag",
            Kind::Keystream => "keystream",
        })
    }
}

// Which of the two makes the calls: they make them in another order.
#[derive(Clone, Copy, PartialEq, Eq)]
pub enum Direction {
    Sealing,
    Opening,
}

impl fmt::Display for Direction {
    ghost output = { λ direction. Some (direction_word direction) };

    fn fmt<W: fmt::Write>(&self, f: &mut fmt::Formatter<W>) -> fmt::Result {
        f.write_str(match self {
            Direction::Sealing => "sealing",
            Direction::Opening => "opening",
        })
    }
}

// What a row is for, its block number, and whether its block of text is partial.
#[derive(Clone, Copy)]
pub struct Label {
    pub kind: Kind,
    pub number: usize,
    pub partial: bool,
}

impl fmt::Display for Label {
    ghost output = { λ label. Some (label_text label) };

    fn fmt<W: fmt::Write>(&self, f: &mut fmt::Formatter<W>) -> fmt::Result {
        let kind = self.kind;
        let number = self.number;
        let extent = if self.partial { "partial" } else { "whole" };
        write!(f, "{kind} {number} {extent}")
    }
}

// All that the tables depend on: the suite, and how many bytes of data and of message there are.
#[derive(Clone, Copy)]
pub struct Shape {
    pub suite: u8,
    pub ad: usize,
    pub message: usize,
}

// A partial block is counted.
fn blocks(bytes: usize) -> usize
    ensures { result ≡ blocks_of bytes }
{
    bytes.div_ceil(16)
}

// Block i of a text of so many bytes.
fn block_label(kind: Kind, bytes: usize, i: usize) -> Label
    requires { i ≤ 1048576 }
    ensures { result ≡ block_label kind bytes i }
{
    Label {
        kind,
        number: i,
        partial: bytes < 16 * i + 16,
    }
}

impl Shape {
    // What refuses a sealing, or an opening with a tag of 16 bytes, where key and nonce fit.
    pub fn refusal(self) -> Result<(), Refused>
        ensures { answer_number result ≡ refused self.suite self.ad self.message }
    {
        let key = suites::key_length(self.suite);
        let nonce = suites::nonce_length(self.suite);
        suites::refusal(self.suite, key, nonce, self.ad, self.message)
    }

    // How many rows the sealing has, and the opening too: `tables_count` in proofs/Tables.
    #[tactic(auto, using(crate::proofs::Tables::table_none, crate::proofs::Tables::table_count_i, crate::proofs::Tables::table_count_ii))]
    pub fn rows(self) -> usize
        ensures { result ≡ length (risk_table self.suite self.ad self.message) }
    {
        if self.refusal().is_err() {
            return 0;
        }
        let a = blocks(self.ad);
        let m = blocks(self.message);
        if self.suite <= 2 {
            return a + m + 1;
        }
        a + 2 * m + 1
    }

    // The tag: in Deoxys-I its tweak numbers it and says whether the message ends in a partial block.
    fn tag_label(self) -> Label
        ensures { result ≡ tag_label self.suite self.message }
    {
        if self.suite <= 2 {
            return Label {
                kind: Kind::Tag,
                number: blocks(self.message),
                partial: self.message % 16 != 0,
            };
        }
        Label {
            kind: Kind::Tag,
            number: 0,
            partial: false,
        }
    }

    // The blocks of keystream: none in Deoxys-I.
    #[tactic(auto, using(crate::proofs::Tables::keystream_none, crate::proofs::Tables::keystream_all))]
    fn keystream_blocks(self) -> usize
        ensures { result ≡ length (keystream_labels self.suite self.message) }
    {
        if self.suite <= 2 {
            return 0;
        }
        blocks(self.message)
    }

    // Row j of a sealing without data: message, tag, keystream. That the message is allowed is a clause, here and below, and no invariant: a shape
    // may be one that is refused.
    #[tactic(auto, using(crate::proofs::Tables::sealed_message, crate::proofs::Tables::sealed_tag, crate::proofs::Tables::sealed_keystream))]
    fn sealed_row(self, j: usize) -> Label
        requires { (self.message ≤ 1048576) × (j < length (labels self.suite 0 self.message)) }
        ensures { slice_get (labels self.suite 0 self.message) j ≡ Some result }
    {
        let m = blocks(self.message);
        if j < m {
            return block_label(Kind::Message, self.message, j);
        }
        if j == m {
            return self.tag_label();
        }
        block_label(Kind::Keystream, self.message, j - m - 1)
    }

    // Row j of an opening without data: keystream, message, tag.
    #[tactic(auto, using(crate::proofs::Tables::opened_keystream, crate::proofs::Tables::opened_message, crate::proofs::Tables::opened_tag, crate::proofs::Tables::small))]
    fn opened_row(self, j: usize) -> Label
        requires { (self.message ≤ 1048576) × (j < length (labels self.suite 0 self.message)) }
        ensures { slice_get (opening_labels self.suite 0 self.message) j ≡ Some result }
    {
        let k = self.keystream_blocks();
        if j < k {
            return block_label(Kind::Keystream, self.message, j);
        }
        let n = j - k;
        if n < blocks(self.message) {
            return block_label(Kind::Message, self.message, n);
        }
        self.tag_label()
    }

    // Row j of a table without data.
    fn later_row(self, direction: Direction, j: usize) -> Label
        requires { (self.message ≤ 1048576) × (j < length (labels self.suite 0 self.message)) }
        ensures { slice_get (labels_of direction self.suite 0 self.message) j ≡ Some result }
    {
        match direction {
            Direction::Sealing => self.sealed_row(j),
            Direction::Opening => self.opened_row(j),
        }
    }

    // Row i of a table, counted from zero: the data's rows, and then those of a text without data.
    #[tactic(auto, using(crate::proofs::Tables::row_none, crate::proofs::Tables::row_data_lem, crate::proofs::Tables::row_later))]
    pub fn row(self, direction: Direction, i: usize) -> Option<Label>
        ensures label { result ≡ slice_get (table_of direction self.suite self.ad self.message) i }
        ensures there_if_counted { i < length (risk_table self.suite self.ad self.message) → IsSome result }
    {
        if self.rows() <= i {
            return None;
        }
        let a = blocks(self.ad);
        if i < a {
            return Some(block_label(Kind::Data, self.ad, i));
        }
        let j = i - a;
        Some(self.later_row(direction, j))
    }
}
