// Replays vectors through the library, compares every answer, and writes what it found. The lists are files of `data/`.

#![tactic(auto)]

mod vector;

use replay::{cases, report};
use std::io;
use vector::replayed;

// The spoilt list shows that a difference is told; it is no part of the total.
fn main(rt: HostRuntime) -> io::Result<()> {
    cases::list(&rt, b"spoilt.txt", replayed)?;
    let published = cases::list(&rt, b"published.txt", replayed)?;
    let answers = cases::list(&rt, b"crate.txt", replayed)?;
    let lengths = cases::list(&rt, b"lengths.txt", replayed)?;
    report::total(&rt, published.and(answers).and(lengths))?;
    Ok(())
}
