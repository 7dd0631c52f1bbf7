// Sealing on a machine that can't hold the message: one piece of IN is held at a time.
ghost use Rattle.std.specs.Prelude.{◌≡◌, ltb, length, IfSome};
ghost use Rattle.pieces.specs.ByPieces.{taking};

use crate::files::{In, Out};
use crate::inputs::Inputs;
use crate::{files, words};
use pieces::Pieces;
use std::io::{Read, Write};
use std::rt::{Env, Files};

// A multiple of 16, so that only IN's end can make a piece the last.
const PIECE_BYTES: usize = 4096;

// So many pieces are a message at the limit. The one after them is empty, or refused as too long.
const MOST_PIECES: usize = 256;

// A piece that OUT has: the state after it, and whether it counts as IN's last, which `last_if_short` says of it.
#[derive(Clone, Copy)]
struct Passed {
    state: Pieces,
    last: bool,
}

// Writes what a call left that answered with this number. None where it refused or that fails, which is told.
fn written<F: Write>(rt: &impl Eprint, out: &mut Out<'_, F>, number: u8, left: &[u8]) -> Option<()>
    ensures { IfSome result (λ _. number ≡ 0) }
{
    words::accepted(rt, number)?;
    files::write_to(rt, out, left)
}

// Enciphers a piece and then writes it. None where either fails, which is told.
fn pass_on<F: Write>(
    rt: &impl Eprint,
    out: &mut Out<'_, F>,
    state: Pieces,
    piece: &mut [u8],
) -> Option<Passed>
    ensures piece_after { piece.new ≡ (taking state piece.old).piece }
    ensures state_after { IfSome result (λ passed. passed.state ≡ (taking state piece.old).answer.pieces) }
    ensures only_if_taken { IfSome result (λ _. (taking state piece.old).answer.number ≡ 0) }
    ensures last_if_short { IfSome result (λ passed. passed.last ≡ ltb (length piece.old) 4096) }
{
    let last = piece.len() < PIECE_BYTES;
    let taken = state.take(piece);
    written(rt, out, taken.number, piece)?;
    Some(Passed {
        state: taken.pieces,
        last,
    })
}

// Passes IN on, piece by piece, and gives the state after the last one, which is shorter.
fn pass_all<F: Read, G: Write>(
    rt: &impl Eprint,
    file: &mut In<'_, F>,
    out: &mut Out<'_, G>,
    begun: Pieces,
) -> Option<Pieces> {
    let mut state = begun;
    for _ in 0..=MOST_PIECES {
        let mut space = [0u8; PIECE_BYTES];
        let n = files::read_from(rt, file, &mut space)?;
        let passed = pass_on(rt, out, state, &mut space[..n])?;
        if passed.last {
            return Some(passed.state);
        }
        state = passed.state;
    }
    None
}

// Writes the ciphertext and then the tag; the number of rows.
fn seal_beside<F: Read, G: Write>(
    rt: &impl Eprint,
    file: &mut In<'_, F>,
    out: &mut Out<'_, G>,
    begun: Pieces,
) -> Option<usize> {
    let finished = pass_all(rt, file, out, begun)?.finish();
    written(rt, out, finished.number, &finished.tag)?;
    Some(finished.rows)
}

// Seals the open file IN as OUT, and tells the rows.
fn seal_file<R: Env + Files + Print + Eprint>(
    rt: &R,
    file: &mut In<'_, R::File>,
    begun: Pieces,
) -> Option<()> {
    let mut space = [0u8; files::OUT_SPACE];
    let mut part_space = [0u8; files::PART_SPACE];
    let mut out = files::begin_named(rt, 7, &mut space, &mut part_space)?;
    let sealed = seal_beside(rt, file, &mut out, begun);
    let rows = files::end(rt, out, sealed)?;
    words::done(rt, "sealed, rows: ", rows)
}

// Seals IN as OUT. Where the begin is refused, nothing is opened or made.
pub fn seal(rt: &(impl Env + Files + Print + Eprint), inputs: Inputs<'_>) -> Option<()> {
    let begun = inputs.begin();
    words::accepted(rt, begun.number)?;
    let mut space = [0u8; files::PATH_SPACE];
    let mut file = files::open_named(rt, 6, "IN", &mut space)?;
    seal_file(rt, &mut file, begun)
}
