// Seals and opens files, seals them by pieces, prints the risk tables of a sealing and an opening, and lists bundles of sealed rows.
//
// Its own exit status is 0 whatever it did: `tools/piverrone` makes one of what is written. What was done is told on
// standard output, and what was not on standard error. The file OUT is written only where the answer is 0.

#![tactic(auto)]

mod arguments;
mod bundles;
mod by_pieces;
mod files;
mod inputs;
mod numbers;
mod places;
mod reasons;
mod words;

use inputs::Inputs;
use risk::{Direction, Shape};
use std::rt::{Env, Files};
use words::{Command, Work};

// A byte more than the longest key and nonce, so that the library sees that a file is too long.
const KEY_SPACE: usize = 33;

const NONCE_SPACE: usize = 16;

fn main(rt: HostRuntime) {
    let mut space = [0u8; 4096];
    let n = arguments::argument(&rt, 1, &mut space);
    // A None was told where it arose.
    let _ = run(&rt, Command::named(&space[..n]));
}

fn run(rt: &(impl Env + Files + Print + Eprint), command: Option<Command>) -> Option<()> {
    match command {
        Some(Command::OnFiles(work)) if arguments::is_count(rt, 8) => with_files(rt, work),
        Some(Command::Rows) if arguments::is_count(rt, 5) => rows(rt),
        Some(Command::Records) if arguments::is_count(rt, 3) => bundles::list_named(rt, 2),
        _ => {
            words::usage(rt);
            None
        }
    }
}

// Reads the key, the nonce and the data, and goes on with what they hold. Each that can't be read is told.
fn with_files(rt: &(impl Env + Files + Print + Eprint), work: Work) -> Option<()> {
    let mut key = [0u8; KEY_SPACE];
    let mut nonce = [0u8; NONCE_SPACE];
    let mut ad = files::large_space();
    let key_read = files::read_named(rt, 3, "KEYFILE", &mut key);
    let nonce_read = files::read_named(rt, 4, "NONCEFILE", &mut nonce);
    let ad_read = files::read_named(rt, 5, "DATAFILE", &mut ad);
    let inputs = Inputs {
        suite: numbers::suite_named(rt, 2),
        key: &key[..key_read?],
        nonce: &nonce[..nonce_read?],
        ad: &ad[..ad_read?],
    };
    match work {
        Work::Pieces => by_pieces::seal(rt, inputs),
        Work::Seal => seal_or_open(rt, Direction::Sealing, inputs),
        Work::Open => seal_or_open(rt, Direction::Opening, inputs),
    }
}

// Reads the whole text. It is called in two places: else the compiler puts its space in the frame of `pieces` too.
fn seal_or_open(
    rt: &(impl Env + Files + Print + Eprint),
    direction: Direction,
    inputs: Inputs<'_>,
) -> Option<()> {
    let mut text = files::large_space();
    let end = files::read_named(rt, 6, "IN", &mut text)?;
    match direction {
        Direction::Sealing => seal(rt, inputs, &mut text[..end]),
        Direction::Opening => open(rt, inputs, &mut text[..end]),
    }
}

// OUT is the ciphertext and then the tag.
fn seal(
    rt: &(impl Env + Files + Print + Eprint),
    inputs: Inputs<'_>,
    text: &mut [u8],
) -> Option<()> {
    let sealed = inputs.seal(text);
    words::accepted(rt, sealed.number)?;
    files::write_named(rt, 7, text, &sealed.tag)?;
    words::done(rt, "sealed, rows: ", sealed.rows)
}

// OUT is the message. `seal` is as long: what the two have in common is in the functions that they call.
fn open(
    rt: &(impl Env + Files + Print + Eprint),
    inputs: Inputs<'_>,
    text: &mut [u8],
) -> Option<()> {
    let at = parcels::tag_at(text.len());
    let opened = inputs.open(text);
    words::accepted(rt, opened.number)?;
    files::write_named(rt, 7, &text[..at], b"")?;
    words::done(rt, "opened, rows: ", opened.rows)
}

// A heading, a line for each block cipher call, and their number, which is the same both ways.
fn table(rt: &(impl Print + Eprint), direction: Direction, shape: Shape) -> Option<()> {
    words::heading(rt, direction)?;
    let n = shape.rows();
    // By number: it is printed, and asked for.
    for i in 0..n {
        words::row(rt, i + 1, shape.row(direction, i).unwrap())?;
    }
    words::done(rt, "rows: ", n)
}

fn rows(rt: &(impl Env + Print + Eprint)) -> Option<()> {
    let ad = numbers::number_named(rt, 3);
    let message = numbers::number_named(rt, 4);
    let (Some(ad), Some(message)) = (ad, message) else {
        words::usage(rt);
        return None;
    };
    let suite = numbers::suite_named(rt, 2);
    let shape = Shape { suite, ad, message };
    if let Err(refused) = shape.refusal() {
        words::refused(rt, refused.number());
        return None;
    }
    table(rt, Direction::Sealing, shape)?;
    table(rt, Direction::Opening, shape)
}
