// Replays the house record: what is written, what is read, and bundles, each call compared, and writes what it found. The lists are files of
// `data/`.

#![tactic(auto)]

mod answers;
mod reading;
mod spelling;
mod writing;

use differences::tally::Tally;
use lists::text;
use replay::{cases, report};
use std::{fmt, io};

#[derive(Clone, Copy)]
pub enum Call {
    Writing,
    WritingRowData,
    Reading,
    ReadingABundle,
}

impl fmt::Display for Call {
    fn fmt<W: fmt::Write>(&self, f: &mut fmt::Formatter<W>) -> fmt::Result {
        f.write_str(match self {
            Call::Writing => "writing",
            Call::WritingRowData => "writing row data",
            Call::Reading => "reading",
            Call::ReadingABundle => "reading a bundle",
        })
    }
}

// The first word says what is called; none where the line is no case.
fn replayed(text: &[u8], line: usize, tally: Tally<Call>) -> Option<Tally<Call>> {
    match text::field(text, 0) {
        b"write" => writing::replayed(text, line, tally, Call::Writing, writing::record),
        b"data" => writing::replayed(text, line, tally, Call::WritingRowData, writing::row_data),
        b"read" => reading::replayed(text, line, tally, Call::Reading, reading::record),
        b"bundle" => reading::replayed(text, line, tally, Call::ReadingABundle, reading::bundle),
        _ => None,
    }
}

fn case(text: &[u8], line: usize, tally: Tally<Call>) -> Tally<Call> {
    replayed(text, line, tally)
        .unwrap_or(tally.with_bad_line(line))
        .with_case()
}

// The spoilt list shows that a difference is told; it is no part of the total.
fn main(rt: HostRuntime) -> io::Result<()> {
    cases::list(&rt, b"spoilt.txt", case)?;
    let mut total = cases::list(&rt, b"written.txt", case)?;
    total = total.and(cases::list(&rt, b"read.txt", case)?);
    total = total.and(cases::list(&rt, b"damaged.txt", case)?);
    total = total.and(cases::list(&rt, b"bundles.txt", case)?);
    report::total(&rt, total)?;
    Ok(())
}
