// Lines `write SUITE ROW NONCE NOTE CIPHERTEXT TAG ROOM BYTES ANSWERS..`: ROOM is how many bytes the destination has, and BYTES are to be
// written into it. A line `data` has the same fields, of which row and note are handed over.
use crate::{Call, answers, spelling};
use differences::pattern;
use differences::tally::Tally;
use lists::text;
use record::writer::Written;

// Where the destination starts. There are bytes after the greatest, too.
const BEFORE: usize = 16;

const ROOM: usize = 5300;

const FIRST: usize = 9;

// What a record is written from.
#[derive(Clone, Copy)]
pub struct Parts<'a> {
    suite: u8,
    row: u16,
    nonce: &'a [u8],
    note: &'a [u8],
    cipher: &'a [u8],
    tag: &'a [u8],
}

impl<'a> Parts<'a> {
    // The texts are laid into the room one after the other.
    fn read(line: &[u8], room: &'a mut [u8]) -> Option<Parts<'a>> {
        let suite = u8::try_from(spelling::number_at(line, 1)?).ok()?;
        let row = u16::try_from(spelling::number_at(line, 2)?).ok()?;
        let nonce = spelling::laid(text::field(line, 3), room, 0)?;
        let note = spelling::laid(text::field(line, 4), room, nonce)?;
        let cipher = spelling::laid(text::field(line, 5), room, note)?;
        let tag = spelling::laid(text::field(line, 6), room, cipher)?;
        Some(Parts {
            suite,
            row,
            nonce: room.get(..nonce)?,
            note: room.get(nonce..note)?,
            cipher: room.get(note..cipher)?,
            tag: room.get(cipher..tag)?,
        })
    }
}

pub fn record(parts: &Parts, destination: &mut [u8]) -> Written {
    record::writer::write(
        parts.suite,
        parts.row,
        parts.nonce,
        parts.note,
        parts.cipher,
        parts.tag,
        destination,
    )
}

pub fn row_data(parts: &Parts, destination: &mut [u8]) -> Written {
    record::writer::write_row_data(parts.row, parts.note, destination)
}

// The room as it is to be after the call.
fn lay_wanted(line: &[u8], room: &mut [u8]) -> Option<usize> {
    pattern::fill(room, pattern::BUFFER);
    spelling::laid(text::field(line, 8), room, BEFORE)
}

// None where the line is no case.
pub fn replayed<F: Fn(&Parts, &mut [u8]) -> Written>(
    text: &[u8],
    line: usize,
    tally: Tally<Call>,
    call: Call,
    write: F,
) -> Option<Tally<Call>>
    requires { F.IsAlwaysCallable write }
{
    let mut texts = [0u8; ROOM];
    let parts = Parts::read(text, &mut texts)?;
    let mut wanted = [0u8; ROOM];
    lay_wanted(text, &mut wanted)?;
    let mut room = [0u8; ROOM];
    pattern::fill(&mut room, pattern::BUFFER);
    let n = spelling::number_at(text, 7)?;
    let written = write(&parts, room.get_mut(BEFORE..)?.get_mut(..n)?);
    let given = [usize::from(written.number), written.length];
    let what = answers::differ(text, FIRST, &given, room == wanted);
    Some(tally.with_call(line, call, what))
}
