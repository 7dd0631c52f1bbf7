// A bundle of sealed rows, listed.
ghost use Rattle.record.specs.HouseRecord.{ReadAllows};

use crate::{files, words};
use record::reader;
use record::reader::Record;
use std::rt::{Env, Files};

// One byte more than the longest bundle, 64 records of 5,172 bytes. What lies after it can't change the answer: each of the first 64 records
// ends within 331,008 bytes, and any byte after record 64 is refused alike.
const SPACE: usize = 331009;

// A line for a record that was read at a place.
#[tactic(auto, using(crate::proofs::Records::note_within, crate::proofs::Records::note_short))]
fn tell_record(
    rt: &(impl Print + Eprint),
    bytes: &[u8],
    count: usize,
    found: Record,
    at: usize,
) -> Option<()>
    requires { ReadAllows bytes.now at found }
{
    let end = found.note + found.note_length;
    words::sealed_row(rt, count, found, &bytes[found.note..end], at)
}

// A line for each record, and their number.
fn tell_records(rt: &(impl Print + Eprint), bytes: &[u8], records: usize) -> Option<()> {
    let mut at = 0;
    // By number, here and below: it is printed, and where a record starts comes from the one before.
    for i in 0..records {
        let found = reader::read(bytes, at);
        tell_record(rt, bytes, i + 1, found, at)?;
        at += found.length;
    }
    words::done(rt, "records: ", records)
}

// Tells the first record that can't be read, or what comes after the last one allowed.
fn tell_refusal(rt: &impl Eprint, bytes: &[u8], number: u8) {
    let mut at = 0;
    for i in 0..reader::MOST_RECORDS {
        let found = reader::read(bytes, at);
        if found.number != 0 {
            words::refused_at(rt, number, i + 1, at);
            return;
        }
        at += found.length;
    }
    words::refused_at(rt, number, reader::MOST_RECORDS + 1, at);
}

fn answer(rt: &(impl Print + Eprint), bytes: &[u8]) -> Option<()> {
    let bundle = reader::read_bundle(bytes);
    if bundle.number != 0 {
        tell_refusal(rt, bytes, bundle.number);
        return None;
    }
    tell_records(rt, bytes, bundle.records)
}

// Lists the file that argument i, FILE, names.
pub fn list_named(rt: &(impl Env + Files + Print + Eprint), i: usize) -> Option<()> {
    let mut space = [0u8; SPACE];
    let end = files::read_named(rt, i, "FILE", &mut space)?;
    answer(rt, &space[..end])
}
