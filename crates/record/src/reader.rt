// The reader: of one record at a place, and of a bundle.
ghost use Rattle.std.specs.Prelude.{◌≡◌, ◌+◌, ◌<◌, ◌^◌, length};
ghost use Rattle.record.specs.HouseRecord.{no_record, ReadAllows, BundleAllows};
ghost use Rattle.record.specs.Parts.{HeadRead, TextsRead, RecordRead};

use crate::house;
use fields::{Refused, pair, range_refusal, read_field};

// A number, as NO_ROOM of the writer: it is tested where the C answer is made, so an enum about it would be taken apart at once.
const TOO_MANY: u8 = 15;

pub const MOST_RECORDS: usize = 64;

// What the reader answers, here and below as C has it: a number, suite and row, where each text lies in the bytes given and how long it is (the tag has 16 bytes), and
// the record's own length. Refused, all but the number is zero.
#[repr(C)]
#[derive(Clone, Copy)]
pub struct Record {
    pub number: u8,
    pub suite: u8,
    pub row: u16,
    pub nonce: usize,
    pub nonce_length: usize,
    pub note: usize,
    pub note_length: usize,
    pub cipher: usize,
    pub cipher_length: usize,
    pub tag: usize,
    pub length: usize,
}

// What the reader of a bundle answers: a number, and how many records there are.
#[repr(C)]
#[derive(Clone, Copy)]
pub struct Bundle {
    pub number: u8,
    pub records: usize,
}

// How long the note and the ciphertext are.
#[derive(Clone, Copy)]
struct Texts {
    note: usize,
    cipher: usize,
}

fn no_record(number: u8) -> Record
    ensures { result ≡ no_record number }
{
    Record {
        number,
        suite: 0,
        row: 0,
        nonce: 0,
        nonce_length: 0,
        note: 0,
        note_length: 0,
        cipher: 0,
        cipher_length: 0,
        tag: 0,
        length: 0,
    }
}

// The fields of suite and row, which take nine bytes.
fn read_head(left: &[u8]) -> Result<(), Refused>
    ensures { HeadRead left.now result }
{
    read_field(left, house::SUITE, 1, 1)?;
    range_refusal(usize::from(left[3]), house::MOST_SUITE)?;
    read_field(&left[4..], house::ROW, 2, 2)?;
    range_refusal(usize::from(pair(left, 7)), house::MOST_ROW)
}

// The fields of nonce, note, ciphertext and tag.
fn read_texts(left: &[u8], nonce: usize) -> Result<Texts, Refused>
    ensures { TextsRead nonce left.now result }
{
    let bytes = read_field(left, house::NONCE, nonce, nonce)?;
    let at = 3 + bytes;
    let note = read_field(&left[at..], house::NOTE, 0, house::MOST_NOTE)?;
    let at = at + 3 + note;
    let cipher = read_field(&left[at..], house::CIPHER, 0, house::MOST_CIPHER)?;
    let at = at + 3 + cipher;
    read_field(&left[at..], house::TAG, house::TAG_BYTES, house::TAG_BYTES)?;
    Ok(Texts { note, cipher })
}

// The record that the bytes left begin with; its place is that of the bytes left.
fn read_left(left: &[u8], at: usize) -> Result<Record, Refused>
    requires { at + length left.now < 2 ^ 64 }
    ensures { RecordRead at left.now result }
{
    read_head(left)?;
    let suite = left[3];
    let nonce_length = suites::nonce_length(suite);
    let texts = read_texts(&left[9..], nonce_length)?;
    let note = at + 15 + nonce_length;
    let cipher = note + texts.note + 3;
    let tag = cipher + texts.cipher + 3;
    Ok(Record {
        number: 0,
        suite,
        row: pair(left, 7),
        nonce: at + 12,
        nonce_length,
        note,
        note_length: texts.note,
        cipher,
        cipher_length: texts.cipher,
        tag,
        length: tag + house::TAG_BYTES - at,
    })
}

// The record at a place. Past the end there are no bytes left, as at the end.
pub fn read(bytes: &[u8], at: usize) -> Record
    ensures { ReadAllows bytes.now at result }
{
    if bytes.len() < at {
        return no_record(Refused::Missing.number());
    }
    match read_left(&bytes[at..], at) {
        Ok(record) => record,
        Err(refused) => no_record(refused.number()),
    }
}

fn no_bundle(number: u8) -> Bundle
    ensures { result ≡ record { number = number; records = 0 } }
{
    Bundle { number, records: 0 }
}

// The records one after another, to the last byte. A `while`: where the next one starts is known only when this one is read.
pub fn read_bundle(bytes: &[u8]) -> Bundle
    ensures { BundleAllows bytes.now result }
{
    let mut at = 0;
    let mut records = 0;
    while at < bytes.len() {
        if records == MOST_RECORDS {
            return no_bundle(TOO_MANY);
        }
        let record = read(bytes, at);
        if record.number != 0 {
            return no_bundle(record.number);
        }
        at += record.length;
        records += 1;
    }
    Bundle { number: 0, records }
}
