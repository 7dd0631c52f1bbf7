// The writer: of a record, and of the associated data of a sealed row. Nothing is written before everything has been looked at.
ghost use Rattle.std.specs.Prelude.{◌≡◌, [], ◌∷◌, ◌+◌, ◌≤◌, ◌<◌, length};
ghost use Rattle.octets.specs.Octets.{big_endian};
ghost use Rattle.fields.specs.Fields.{fields_refusal};
ghost use Rattle.record.specs.HouseRecord.{suite_rule, row_rule, text_rules, written, WriteAllows, RowDataAllows};
ghost use Rattle.fields.specs.Answers.{answer_number, laid_at};

use crate::house;
use fields::{Refused, put, put_field, range_refusal};

const NO_ROOM: u8 = 24;

// All heads, the suite, the row and the tag.
const FIXED_BYTES: usize = 37;

const ROW_BYTES: usize = 2;

// What the writer answers, as C has it: a number, and how many bytes it laid at the start of the destination.
#[repr(C)]
#[derive(Clone, Copy)]
pub struct Written {
    pub number: u8,
    pub length: usize,
}

fn unwritten(number: u8) -> Written
    ensures { result ≡ record { number = number; length = 0 } }
{
    Written { number, length: 0 }
}

// The ranges of suite and row.
fn head_refusal(suite: u8, row: u16) -> Result<(), Refused>
    ensures { answer_number result ≡ fields_refusal (suite_rule ∷ row_rule ∷ []) ((suite ∷ []) ∷ big_endian 2 row ∷ []) }
{
    range_refusal(usize::from(suite), house::MOST_SUITE)?;
    range_refusal(usize::from(row), house::MOST_ROW)
}

// The lengths of nonce, note, ciphertext and tag.
#[tactic(auto, using(crate::proofs::Writings::lengths))]
fn texts_refusal(
    nonce_length: usize,
    nonce: &[u8],
    note: &[u8],
    cipher: &[u8],
    tag: &[u8],
) -> Result<(), Refused>
    ensures { answer_number result ≡ fields_refusal (text_rules nonce_length)
        (nonce.now ∷ note.now ∷ cipher.now ∷ tag.now ∷ []) }
{
    if nonce.len() != nonce_length
        || house::MOST_NOTE < note.len()
        || house::MOST_CIPHER < cipher.len()
        || tag.len() != house::TAG_BYTES
    {
        return Err(Refused::WrongLength);
    }
    Ok(())
}

// The six fields one after another. No struct of them: the C export hands them to `write` one by one, and only `lay` would take it apart.
fn lay(
    suite: u8,
    row: u16,
    nonce: &[u8],
    note: &[u8],
    cipher: &[u8],
    tag: &[u8],
    destination: &mut [u8],
)
    requires room { 21 + length nonce.now + length note.now + length cipher.now + length tag.now ≤ length destination.old }
    requires in_two_bytes { (length nonce.now < 65536) × (length note.now < 65536) × (length cipher.now < 65536) × (length tag.now < 65536) }
    ensures { destination.new ≡ laid_at 0 (written (record {
      suite = suite;
      row = row;
      nonce = nonce.now;
      note = note.now;
      cipher = cipher.now;
      tag = tag.now;
    })) destination.old }
{
    let at = put_field(destination, 0, house::SUITE, &[suite]);
    let at = put_field(destination, at, house::ROW, &row.to_be_bytes());
    let at = put_field(destination, at, house::NONCE, nonce);
    let at = put_field(destination, at, house::NOTE, note);
    let at = put_field(destination, at, house::CIPHER, cipher);
    put_field(destination, at, house::TAG, tag);
}

// Writes a record at the start of the destination, or refuses and leaves it as it stood.
pub fn write(
    suite: u8,
    row: u16,
    nonce: &[u8],
    note: &[u8],
    cipher: &[u8],
    tag: &[u8],
    destination: &mut [u8],
) -> Written
    ensures { WriteAllows (record {
      suite = suite;
      row = row;
      nonce = nonce.now;
      note = note.now;
      cipher = cipher.now;
      tag = tag.now;
    }) destination.old (record { answer = result; destination = destination.new }) }
{
    if let Err(refused) = head_refusal(suite, row) {
        return unwritten(refused.number());
    }
    if let Err(refused) = texts_refusal(suites::nonce_length(suite), nonce, note, cipher, tag) {
        return unwritten(refused.number());
    }
    let length = FIXED_BYTES + nonce.len() + note.len() + cipher.len();
    if destination.len() < length {
        return unwritten(NO_ROOM);
    }
    lay(suite, row, nonce, note, cipher, tag, destination);
    Written { number: 0, length }
}

// Writes what the cipher takes as associated data, the two row bytes and then the note; or refuses as the writer does.
pub fn write_row_data(row: u16, note: &[u8], destination: &mut [u8]) -> Written
    ensures { RowDataAllows row note.now destination.old
        (record { answer = result; destination = destination.new }) }
{
    if let Err(refused) = range_refusal(usize::from(row), house::MOST_ROW) {
        return unwritten(refused.number());
    }
    if house::MOST_NOTE < note.len() {
        return unwritten(Refused::WrongLength.number());
    }
    let bytes = ROW_BYTES + note.len();
    if destination.len() < bytes {
        return unwritten(NO_ROOM);
    }
    let at = put(destination, 0, &row.to_be_bytes());
    put(destination, at, note);
    Written {
        number: 0,
        length: bytes,
    }
}
