// Replays sealing by pieces: scripts of pieces and finishes, each call compared, and writes what it found. The lists are files of `data/`.

#![tactic(auto)]

mod cut;
mod numbers;
mod script;
mod stage;
mod steps;

use crate::script::Script;
use crate::steps::Call;
use differences::tally::Tally;
use lists::text;
use replay::{cases, report};
use std::io;

// The scripts of a line, from this field on, each a case.
fn scripts<F: Fn(&[u8], &Script, usize, Tally<Call>) -> Option<Tally<Call>>>(
    text: &[u8],
    first: usize,
    line: usize,
    mut tally: Tally<Call>,
    replayed: F,
) -> Tally<Call>
    requires { F.IsAlwaysCallable replayed }
{
    if text::ends(text, first) {
        return tally.with_bad_line(line).with_case();
    }
    for field in text.split(|byte| *byte == b' ').skip(first) {
        tally = Script::read(field)
            .and_then(|script| replayed(text, &script, line, tally))
            .unwrap_or(tally.with_bad_line(line))
            .with_case();
    }
    tally
}

// The first word says where the answers stand.
fn replayed(text: &[u8], line: usize, tally: Tally<Call>) -> Tally<Call> {
    match text::field(text, 0) {
        b"cut" => scripts(text, 9, line, tally, cut::replayed),
        b"stage" => scripts(text, 6, line, tally, stage::replayed),
        _ => tally.with_bad_line(line).with_case(),
    }
}

// The spoilt list shows that a difference is told; it is no part of the total.
fn main(rt: HostRuntime) -> io::Result<()> {
    cases::list(&rt, b"spoilt.txt", replayed)?;
    let mut total = cases::list(&rt, b"cuttings.txt", replayed)?;
    total = total.and(cases::list(&rt, b"stages.txt", replayed)?);
    total = total.and(cases::list(&rt, b"limits.txt", replayed)?);
    report::total(&rt, total)?;
    Ok(())
}
