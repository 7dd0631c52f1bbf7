// Deoxys-II: the crate's `DeoxysII` in `src/modes.rs`.

#![tactic(auto)]

ghost use Rattle.std.specs.Prelude.{◌≡◌, ◌∷◌, ◌+◌, ◌/◌, ◌≤◌, ◌<◌, ◌^◌, length};
ghost use Rattle.deoxys_bc.specs.Cipher.{encipher};
ghost use Rattle.tweaks.specs.Tweaks.{keystream_tweak};
ghost use Rattle.modes.specs.Rows.{absorbed};
ghost use Rattle.modes.specs.Answers.{answered};
ghost use Rattle.deoxys_ii.specs.DeoxysII.{message_rows, keystream_rows, crypted, seal_ii, open_ii};

use deoxys_bc::{Called, Count};
use modes::{Tagged, Tally};
use tweakey::Subkeys;

// Bytes of a tweak, as in `modes`.
const TWEAK_M: u8 = 0x00;

const TWEAK_M_LAST: u8 = 0x40;

const TWEAK_TAG: u8 = 0x10;

// Auth goes on over the message.
fn authenticate_message(k: Subkeys, message: &[u8], tally: Tally) -> Tally
    requires { (k.rounds ≤ 16) × (tally.count.rows + length message.now / 16 + 2 < 2 ^ 64) }
    ensures { result ≡ record {
      sum = absorbed tally.sum (message_rows k message.now);
      count = record { rows = tally.count.rows + length (message_rows k message.now) };
    } }
{
    modes::authenticate(k, TWEAK_M, TWEAK_M_LAST, message, tally)
}

// Auth enciphered. Here and below an array goes from one struct into another by a local of its own: from field to field the checker covers not.
fn tag(k: Subkeys, nonce: &[u8; 15], tally: Tally) -> Tagged
    requires { (k.rounds ≤ 16) × (tally.count.rows + 1 < 2 ^ 64) }
    ensures { result ≡ record {
      tag = encipher k (0x10 ∷ nonce.now) tally.sum;
      count = record { rows = tally.count.rows + 1 };
    } }
{
    let tweak = tweaks::prefixed(TWEAK_TAG, nonce);
    let called = deoxys_bc::encipher(k, tweak, tally.sum, tally.count);
    let tag = called.block;
    Tagged {
        tag,
        count: called.count,
    }
}

// Keystream block j; the caller XORs it in.
fn encrypt_decrypt_block(
    k: Subkeys,
    tag: [u8; 16],
    block: [u8; 16],
    j: usize,
    count: Count,
) -> Called
    requires { (k.rounds ≤ 16) × (count.rows + 1 < 2 ^ 64) }
    ensures { result ≡ record { block = encipher k (keystream_tweak tag j) block; count = record { rows = count.rows + 1 } } }
{
    deoxys_bc::encipher(k, tweaks::keystream_tweak(tag, j), block, count)
}

// The message in place, each way, with the keystream of a tag. No call is made for an empty part.
fn encrypt_decrypt_message(
    k: Subkeys,
    tag: [u8; 16],
    nonce: &[u8; 15],
    buffer: &mut [u8],
    count: Count,
) -> Count
    requires { (k.rounds ≤ 16) × (count.rows + length buffer.old / 16 + 2 < 2 ^ 64) }
    ensures value { result ≡ record { rows = count.rows + length (keystream_rows k tag nonce.now buffer.old) } }
    ensures buffer_after { buffer.new ≡ crypted k tag nonce.now buffer.old }
{
    let block = tweaks::prefixed(0x00, nonce);
    let n = buffer.len() / 16;
    let mut running = count;
    // An index: nothing is known of a buffer after its blocks were lent by `as_chunks_mut` or `chunks_exact_mut`.
    for j in 0..n {
        let at = 16 * j;
        let called = encrypt_decrypt_block(k, tag, block, j, running);
        octets::xor_into(&mut buffer[at..at + 16], called.block);
        running = called.count;
    }
    let at = 16 * n;
    if at < buffer.len() {
        let called = encrypt_decrypt_block(k, tag, block, n, running);
        octets::xor_into(&mut buffer[at..], called.block);
        return called.count;
    }
    running
}

// The crate's `encrypt_inout` of Deoxys-II.
pub fn seal(k: Subkeys, nonce: &[u8; 15], ad: &[u8], buffer: &mut [u8]) -> Tagged
    requires { (k.rounds ≤ 16) × (length ad.now ≤ 1048576) × (length buffer.old ≤ 1048576) }
    ensures value { result ≡ answered (seal_ii k nonce.now ad.now buffer.old) }
    ensures buffer_after { buffer.new ≡ (seal_ii k nonce.now ad.now buffer.old).text }
{
    let tally = authenticate_message(k, buffer, modes::compute_ad_tag(k, ad));
    let tagged = tag(k, nonce, tally);
    let tag = tagged.tag;
    let count = encrypt_decrypt_message(k, tag, nonce, buffer, tagged.count);
    Tagged { tag, count }
}

// The crate's `decrypt_inout` of Deoxys-II, up to the comparison: the keystream is the given tag's, the tag the one computed.
pub fn open(k: Subkeys, nonce: &[u8; 15], ad: &[u8], buffer: &mut [u8], given: [u8; 16]) -> Tagged
    requires { (k.rounds ≤ 16) × (length ad.now ≤ 1048576) × (length buffer.old ≤ 1048576) }
    ensures value { result ≡ answered (open_ii k nonce.now ad.now buffer.old given) }
    ensures buffer_after { buffer.new ≡ (open_ii k nonce.now ad.now buffer.old given).text }
{
    let tally = modes::compute_ad_tag(k, ad);
    let sum = tally.sum;
    let count = encrypt_decrypt_message(k, given, nonce, buffer, tally.count);
    let recovered = authenticate_message(k, buffer, Tally { sum, count });
    tag(k, nonce, recovered)
}
