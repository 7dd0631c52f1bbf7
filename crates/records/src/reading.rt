// Lines `read BYTES FROM TO PLACE ANSWERS..` and `bundle BYTES FROM TO 0 ANSWERS..`: the first FROM bytes are read, and one more each time
// up to TO, with the same answers.
use crate::{Call, answers, spelling};
use differences::tally::{Tally, What};
use lists::text;

// More than 65 of the longest records.
const ROOM: usize = 340000;

const FIRST: usize = 5;

// The bytes to the greatest length, the least length, and the place that a record is read at.
#[derive(Clone, Copy)]
struct Case<'a> {
    bytes: &'a [u8],
    from: usize,
    place: usize,
}

impl<'a> Case<'a> {
    fn read(line: &[u8], room: &'a mut [u8]) -> Option<Case<'a>> {
        let length = spelling::laid(text::field(line, 1), room, 0)?;
        let from = spelling::number_at(line, 2)?;
        let to = spelling::number_at(line, 3)?;
        let place = spelling::number_at(line, 4)?;
        if from > to || to > length {
            return None;
        }
        let bytes = room.get(..to)?;
        Some(Case { bytes, from, place })
    }
}

// What differs in a record that is read at a place.
pub fn record(line: &[u8], bytes: &[u8], place: usize) -> Option<What> {
    let r = record::reader::read(bytes, place);
    let given = [
        usize::from(r.number),
        usize::from(r.suite),
        usize::from(r.row),
        r.nonce,
        r.nonce_length,
        r.note,
        r.note_length,
        r.cipher,
        r.cipher_length,
        r.tag,
        r.length,
    ];
    answers::differ(line, FIRST, &given, true)
}

// A bundle is read from its start.
pub fn bundle(line: &[u8], bytes: &[u8], _place: usize) -> Option<What> {
    let b = record::reader::read_bundle(bytes);
    answers::differ(line, FIRST, &[usize::from(b.number), b.records], true)
}

// Every length from the least to that of all bytes, each a call; none where the line is no case. Out of line: else the rooms of both readings
// stand in one frame.
#[inline(never)]
pub fn replayed<F: Fn(&[u8], &[u8], usize) -> Option<What>>(
    text: &[u8],
    line: usize,
    mut tally: Tally<Call>,
    call: Call,
    differs: F,
) -> Option<Tally<Call>>
    requires { F.IsAlwaysCallable differs }
{
    let mut room = [0u8; ROOM];
    let case = Case::read(text, &mut room)?;
    for n in case.from..=case.bytes.len() {
        let what = differs(text, &case.bytes[..n], case.place);
        tally = tally.with_call(line, call, what);
    }
    Some(tally)
}
