// The library's top: every function that C and Rust link, each with the very contract of what it wraps, and nothing else.
// `include/calibration.h` declares them.

#![tactic(auto)]

ghost use Rattle.deoxys.specs.Entry.{SealAllows, OpenAllows};
ghost use Rattle.pieces.specs.ByPieces.{BeginAllows, TakeAllows, FinishAllows};
ghost use Rattle.record.specs.HouseRecord.{WriteAllows, ReadAllows, BundleAllows};

#[unsafe(no_mangle)]
pub extern "C" fn deoxys_seal(
    suite: u8,
    key: &[u8],
    nonce: &[u8],
    ad: &[u8],
    buffer: &mut [u8],
) -> deoxys::Sealed
    ensures { SealAllows suite key.now nonce.now ad.now buffer.old
        (record { answer = result; buffer = buffer.new }) }
{
    deoxys::seal(suite, key, nonce, ad, buffer)
}

#[unsafe(no_mangle)]
pub extern "C" fn deoxys_open(
    suite: u8,
    key: &[u8],
    nonce: &[u8],
    ad: &[u8],
    buffer: &mut [u8],
    tag: &[u8],
) -> deoxys::Opened
    ensures { OpenAllows suite key.now nonce.now ad.now buffer.old tag.now
        (record { answer = result; buffer = buffer.new }) }
{
    deoxys::open(suite, key, nonce, ad, buffer, tag)
}

#[unsafe(no_mangle)]
pub extern "C" fn deoxys_begin(suite: u8, key: &[u8], nonce: &[u8], ad: &[u8]) -> pieces::Pieces
    ensures { BeginAllows suite key.now nonce.now ad.now result }
{
    pieces::begin(suite, key, nonce, ad)
}

#[unsafe(no_mangle)]
pub extern "C" fn deoxys_take(state: pieces::Pieces, piece: &mut [u8]) -> pieces::Taken
    ensures { TakeAllows state piece.old (record { answer = result; piece = piece.new }) }
{
    state.take(piece)
}

#[unsafe(no_mangle)]
pub extern "C" fn deoxys_finish(state: pieces::Pieces) -> pieces::Finished
    ensures { FinishAllows state result }
{
    state.finish()
}

#[unsafe(no_mangle)]
pub extern "C" fn calibration_write_record(
    suite: u8,
    row: u16,
    nonce: &[u8],
    note: &[u8],
    cipher: &[u8],
    tag: &[u8],
    destination: &mut [u8],
) -> record::writer::Written
    ensures { WriteAllows (record {
      suite = suite;
      row = row;
      nonce = nonce.now;
      note = note.now;
      cipher = cipher.now;
      tag = tag.now;
    }) destination.old (record { answer = result; destination = destination.new }) }
{
    record::writer::write(suite, row, nonce, note, cipher, tag, destination)
}

#[unsafe(no_mangle)]
pub extern "C" fn calibration_read_record(bytes: &[u8], at: usize) -> record::reader::Record
    ensures { ReadAllows bytes.now at result }
{
    record::reader::read(bytes, at)
}

#[unsafe(no_mangle)]
pub extern "C" fn calibration_read_bundle(bytes: &[u8]) -> record::reader::Bundle
    ensures { BundleAllows bytes.now result }
{
    record::reader::read_bundle(bytes)
}
