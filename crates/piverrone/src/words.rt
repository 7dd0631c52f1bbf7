// What the program reads and writes in words: on standard output what was done, on standard error what was not.
ghost use Rattle.std.specs.Prelude.{◌≡◌, ◌≤◌, length, None, Some, IfSome, MatchResult};

use crate::reasons;
use record::reader::Record;
use risk::{Direction, Label};
use std::io;

// What is done with a suite and five files.
#[derive(Clone, Copy)]
pub enum Work {
    Seal,
    Open,
    Pieces,
}

#[derive(Clone, Copy)]
pub enum Command {
    OnFiles(Work),
    Rows,
    Records,
}

// The refusal of bytes after a bundle's last record.
const BYTES_AFTER: u8 = 15;

impl Command {
    pub fn named(word: &[u8]) -> Option<Command> {
        match word {
            b"seal" => Some(Command::OnFiles(Work::Seal)),
            b"open" => Some(Command::OnFiles(Work::Open)),
            b"pieces" => Some(Command::OnFiles(Work::Pieces)),
            b"rows" => Some(Command::Rows),
            b"records" => Some(Command::Records),
            _ => None,
        }
    }
}

// Where standard error can't be written, there is nobody to tell.
fn warn(rt: &impl Eprint, text: &str) {
    let _ = rt.eprint(text);
}

pub fn usage(rt: &impl Eprint) {
    warn(
        rt,
        "usage: piverrone seal SUITE KEYFILE NONCEFILE DATAFILE IN OUT
       piverrone open SUITE KEYFILE NONCEFILE DATAFILE IN OUT
       piverrone pieces SUITE KEYFILE NONCEFILE DATAFILE IN OUT
       piverrone rows SUITE DATA-BYTES MESSAGE-BYTES
       piverrone records FILE
OUT is written where standard output says sealed or opened. For an exit status run tools/piverrone.
",
    );
}

// A refusal, by its number and in words.
fn refusal(rt: &impl Eprint, refusal: u8) {
    let _ = eprint!(rt; "refused: {refusal}, ");
    warn(rt, reason(refusal));
}

pub fn refused(rt: &impl Eprint, number: u8) {
    refusal(rt, number);
    warn(rt, "\n");
}

// Nothing, or None where the number refuses, which is told.
pub fn accepted(rt: &impl Eprint, number: u8) -> Option<()>
    ensures { IfSome result (λ _. number ≡ 0) }
{
    if number != 0 {
        refused(rt, number);
        return None;
    }
    Some(())
}

// A refused bundle: the record that can't be read, counted from one, and the place of its first byte.
pub fn refused_at(rt: &impl Eprint, refused: u8, record: usize, at: usize) {
    refusal(rt, refused);
    warn(rt, ":");
    if refused != BYTES_AFTER {
        let _ = eprint!(rt; " record {record}");
    }
    let _ = eprintln!(rt; " at {at}");
}

// The numbers are those of the answers in include/, which C reads.
fn reason(number: u8) -> &'static str {
    match number {
        1 => "the suite is not 1 to 4 (by pieces: 1 or 2)",
        2 => "the key's length is not the suite's",
        3 => "the nonce's length is not the suite's",
        4 => "the data is over 1048576 bytes",
        5 => "the message or ciphertext is over 1048576 bytes",
        6 => "the tag is not 16 bytes",
        7 => "the tag is not the computed one",
        8 => "the last piece was taken before",
        _ => bundle_reason(number),
    }
}

fn bundle_reason(number: u8) -> &'static str {
    match number {
        10 => "bytes are missing",
        11 => "a field's tag is not the one that comes next",
        12 => "a field's length is not allowed",
        13 => "the suite is not 1 to 4 or the row not 1 to 20",
        BYTES_AFTER => "there are bytes after record 64",
        _ => "for which this program has no words",
    }
}

// An OUT that is a folder, a device, a pipe or a link.
pub fn not_regular(rt: &impl Eprint, path: &str) {
    warn(rt, path);
    warn(rt, ": it is not a regular file\n");
}

// What failed, and the system's reason.
pub fn failed(rt: &impl Eprint, what: &str, error: io::Error) {
    warn(rt, what);
    warn(rt, ": ");
    reasons::tell(rt, error);
    warn(rt, "\n");
}

// What was answered, or None where there was a failure, which is told; `what` failed.
pub fn or_tell<T>(rt: &impl Eprint, what: &str, answer: io::Result<T>) -> Option<T>
    ensures { MatchResult answer (λ value. result ≡ Some value) (λ _. result ≡ None) }
{
    match answer {
        Ok(value) => Some(value),
        Err(error) => {
            failed(rt, what, error);
            None
        }
    }
}

// Where not all was written, that is told.
fn told(rt: &impl Eprint, all: io::Result<()>) -> Option<()> {
    or_tell(rt, "standard output", all)
}

// What was done, and its number of rows or records.
pub fn done(rt: &(impl Print + Eprint), what: &str, count: usize) -> Option<()> {
    told(rt, println!(rt; "{what}{count}"))
}

pub fn heading(rt: &(impl Print + Eprint), direction: Direction) -> Option<()> {
    told(rt, println!(rt; "{direction}"))
}

// A row of a risk table, numbered from one.
pub fn row(rt: &(impl Print + Eprint), number: usize, label: Label) -> Option<()> {
    told(rt, println!(rt; "{number} {label}"))
}

// A note in quotes. Each of its bytes is shown by up to four.
fn note(rt: &impl Print, note: &[u8]) -> io::Result<()>
    requires { length note.now ≤ 1024 }
{
    let mut space = [0u8; 4096];
    let n = quoted::spell(note, &mut space);
    rt.print(" note \"")?;
    rt.write_all(&space[..n])?;
    rt.print("\"")
}

fn parts(rt: &impl Print, count: usize, found: Record, text: &[u8], at: usize) -> io::Result<()>
    requires { length text.now ≤ 1024 }
{
    let row = found.row;
    let suite = found.suite;
    let length = found.cipher_length;
    print!(rt; "{count} row {row} suite {suite}")?;
    note(rt, text)?;
    println!(rt; " ciphertext {length} at {at}")
}

// A record of a bundle, counted from one, with its note and its place: no struct, for only `parts` would take it apart.
pub fn sealed_row(
    rt: &(impl Print + Eprint),
    count: usize,
    found: Record,
    text: &[u8],
    at: usize,
) -> Option<()>
    requires { length text.now ≤ 1024 }
{
    told(rt, parts(rt, count, found, text, at))
}
