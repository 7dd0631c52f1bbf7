// Deoxys-I: the crate's `DeoxysI` in `src/modes.rs`.

#![tactic(auto)]

ghost use Rattle.std.specs.Prelude.{◌≡◌, ◌++◌, ◌+◌, ◌*◌, ◌/◌, ◌%◌, ◌≤◌, ◌<◌, ◌^◌, eqb, length, take, drop};
ghost use Rattle.octets.specs.Octets.{pick, ◌⊕◌};
ghost use Rattle.tweaks.specs.Tweaks.{nonce_tweak};
ghost use Rattle.modes.specs.Answers.{answered};
ghost use Rattle.deoxys_i.specs.Direction.{direction};
ghost use Rattle.deoxys_i.specs.DeoxysI.{summed, sum_row, rows_from, text_from, seal_i, open_i};

use deoxys_bc::{Called, Count};
use modes::Tagged;
use tweakey::Subkeys;

// Bytes of a tweak, as in `modes`.
const KIND_MESSAGE: u8 = 0;

const KIND_MESSAGE_LAST: u8 = 4;

const KIND_TAG: u8 = 1;

const KIND_TAG_LAST: u8 = 5;

// A call, deciphering where it is an opening. A flag, as `direction` in the clauses here and of `crypt_message` takes a truth value.
fn crypt_block(k: Subkeys, tweak: [u8; 16], block: [u8; 16], opening: bool, count: Count) -> Called
    requires { (k.rounds ≤ 16) × (count.rows + 1 < 2 ^ 64) }
    ensures { result ≡ record { block = (direction opening k tweak block).to; count = record { rows = count.rows + 1 } } }
{
    if opening {
        return deoxys_bc::decipher(k, tweak, block, count);
    }
    deoxys_bc::encipher(k, tweak, block, count)
}

// Full block i of the buffer, in place, under its number in the message.
fn crypt_turn(
    k: Subkeys,
    nonce: &[u8; 8],
    number: usize,
    buffer: &mut [u8],
    i: usize,
    opening: bool,
    count: Count,
) -> Count
    requires { (k.rounds ≤ 16) × (16 * i + 16 ≤ length buffer.old) × (count.rows + 1 < 2 ^ 64) }
    ensures value { result ≡ record { rows = count.rows + 1 } }
    ensures buffer_after { buffer.new ≡ take (16 * i) buffer.old
        ++ ((direction opening k (nonce_tweak 0 nonce.now number) (take 16 (drop (16 * i) buffer.old))).to
        ++ drop (16 * i + 16) buffer.old) }
{
    let at = 16 * i;
    let block = octets::read_block(buffer, at);
    let tweak = tweaks::nonce_tweak(KIND_MESSAGE, nonce, number);
    let called = crypt_block(k, tweak, block, opening, count);
    octets::write_block(buffer, at, called.block);
    called.count
}

// The message, or a piece of it, in place, its first block under this number: full blocks by calls, the partial one, lent as a part, XORed
// with an enciphered zero block.
pub fn crypt_message(
    k: Subkeys,
    nonce: &[u8; 8],
    first: usize,
    buffer: &mut [u8],
    opening: bool,
    count: Count,
) -> Count
    requires { (k.rounds ≤ 16) × (first + length buffer.old / 16 < 2 ^ 64)
        × (count.rows + length buffer.old / 16 + 2 < 2 ^ 64) }
    ensures value { result ≡ record { rows = count.rows + length (rows_from first (direction opening k) k nonce.now buffer.old) } }
    ensures buffer_after { buffer.new ≡ text_from first (direction opening k) k nonce.now buffer.old }
{
    let n = buffer.len() / 16;
    let mut running = count;
    // An index: nothing is known of a buffer after its blocks were lent by `as_chunks_mut` or `chunks_exact_mut`.
    for i in 0..n {
        running = crypt_turn(k, nonce, first + i, buffer, i, opening, running);
    }
    let at = 16 * n;
    if at < buffer.len() {
        let tweak = tweaks::nonce_tweak(KIND_MESSAGE_LAST, nonce, first + n);
        let called = deoxys_bc::encipher(k, tweak, [0u8; 16], running);
        octets::xor_into(&mut buffer[at..], called.block);
        return called.count;
    }
    running
}

// A sum XOR the full blocks and the padded partial one.
pub fn checksum(from: [u8; 16], message: &[u8]) -> [u8; 16]
    ensures { result ≡ summed from message.now }
{
    let (blocks, rest) = message.as_chunks::<16>();
    let mut sum = from;
    for block in blocks {
        // A local of its own: the checker does not cover an array that a call lays into a variable of a loop.
        let next = octets::xor_block(sum, *block);
        sum = next;
    }
    if !rest.is_empty() {
        return octets::xor_block(sum, octets::pad(rest));
    }
    sum
}

// The tag's kind, for a message of so many bytes.
fn tag_kind(bytes: usize) -> u8
    ensures { result ≡ pick (eqb (bytes % 16) 0) 1 5 }
{
    if bytes % 16 == 0 {
        return KIND_TAG;
    }
    KIND_TAG_LAST
}

// Auth XOR the enciphered checksum; the number counts the partial block.
pub fn tag(
    k: Subkeys,
    nonce: &[u8; 8],
    bytes: usize,
    sum: [u8; 16],
    auth: [u8; 16],
    count: Count,
) -> Tagged
    requires { (k.rounds ≤ 16) × (bytes + 15 < 2 ^ 64) × (count.rows + 1 < 2 ^ 64) }
    ensures { result ≡ record {
      tag = auth ⊕ (sum_row k nonce.now bytes sum).to;
      count = record { rows = count.rows + 1 };
    } }
{
    let tweak = tweaks::nonce_tweak(tag_kind(bytes), nonce, (bytes + 15) / 16);
    let called = deoxys_bc::encipher(k, tweak, sum, count);
    Tagged {
        tag: octets::xor_block(auth, called.block),
        count: called.count,
    }
}

// The crate's `encrypt_inout` of Deoxys-I. The bounds are clauses here, below and in Deoxys-II: a slice with an invariant would be made by
// `deoxys` and taken apart at once.
pub fn seal(k: Subkeys, nonce: &[u8; 8], ad: &[u8], buffer: &mut [u8]) -> Tagged
    requires { (k.rounds ≤ 16) × (length ad.now ≤ 1048576) × (length buffer.old ≤ 1048576) }
    ensures value { result ≡ answered (seal_i k nonce.now ad.now buffer.old) }
    ensures buffer_after { buffer.new ≡ (seal_i k nonce.now ad.now buffer.old).text }
{
    let tally = modes::compute_ad_tag(k, ad);
    let sum = checksum([0u8; 16], buffer);
    let count = crypt_message(k, nonce, 0, buffer, false, tally.count);
    tag(k, nonce, buffer.len(), sum, tally.sum, count)
}

// The crate's `decrypt_inout` of Deoxys-I, up to the comparison: the tag is the one computed.
pub fn open(k: Subkeys, nonce: &[u8; 8], ad: &[u8], buffer: &mut [u8]) -> Tagged
    requires { (k.rounds ≤ 16) × (length ad.now ≤ 1048576) × (length buffer.old ≤ 1048576) }
    ensures value { result ≡ answered (open_i k nonce.now ad.now buffer.old) }
    ensures buffer_after { buffer.new ≡ (open_i k nonce.now ad.now buffer.old).text }
{
    let tally = modes::compute_ad_tag(k, ad);
    let count = crypt_message(k, nonce, 0, buffer, true, tally.count);
    let recovered_sum = checksum([0u8; 16], buffer);
    tag(k, nonce, buffer.len(), recovered_sum, tally.sum, count)
}
