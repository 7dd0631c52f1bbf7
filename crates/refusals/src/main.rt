// Replays refusals and limits through the library, compares every answer, and writes what it found. The lists are files of `data/`.

#![tactic(auto)]

mod lengths;

use differences::pattern;
use differences::tally::Tally;
use lengths::{Call, ROOM, Rooms};
use replay::{cases, report};
use std::io;
use std::rt::Files;

fn list(
    rt: &(impl Files + Print + Eprint),
    name: &[u8],
    rooms: &mut Rooms<'_>,
) -> io::Result<Tally<Call>> {
    cases::list(rt, name, |text: &[u8], line: usize, tally: Tally<Call>| {
        rooms.replayed(text, line, tally)
    })
}

// A function, for its array is any of its length: of one written out here the proof would go through each byte.
fn fill(data: &mut [u8; ROOM]) {
    pattern::fill(data, pattern::DATA);
}

// The spoilt list shows that a difference is told; it is no part of the total.
fn main(rt: HostRuntime) -> io::Result<()> {
    let mut data = [0u8; ROOM];
    let mut buffer = [0u8; ROOM];
    fill(&mut data);
    let mut rooms = Rooms {
        data: &data,
        buffer: &mut buffer,
    };
    list(&rt, b"spoilt.txt", &mut rooms)?;
    let refusals = list(&rt, b"refusals.txt", &mut rooms)?;
    let limits = list(&rt, b"limits.txt", &mut rooms)?;
    report::total(&rt, refusals.and(limits))?;
    Ok(())
}
