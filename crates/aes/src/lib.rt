// The pieces of AES (FIPS 197) that the crate takes from `aes::hazmat`: mixing, and a round each way.

#![tactic(auto)]

ghost use Rattle.std.specs.Prelude.{◌≡◌, ◌+◌, ◌*◌, ◌/◌, ◌%◌, ◌<◌, get_or};
ghost use Rattle.octets.specs.Octets.{table, each_byte};
ghost use Rattle.field.specs.Field.{double};
ghost use Rattle.field.specs.Substitution.{sub, inv_sub};
ghost use Rattle.aes.specs.Round.{byte_at, shift_rows, inv_shift_rows, mix_byte, mix_columns, inv_mix_columns, round, equiv_inv_round};

use std::array;

// Each byte replaced by its entry of a table: SubBytes by the S-box, InvSubBytes by the inverse one.
// `block.map` was tried, here and below, and misses the bar of docs/DESIGN-PASS.md: an enciphering took six times the instructions.
fn substitute(entries: &[u8; 256], block: [u8; 16]) -> [u8; 16]
    ensures { result ≡ each_byte (λ x. get_or entries.now x 0) block }
{
    array::from_fn(|i| entries[usize::from(block[i])])
}

// Byte i comes from place i * step mod 16: a turn of the rows, by a step of 5 to the left and of 13 to the right.
fn turn_rows(block: [u8; 16], step: usize) -> [u8; 16]
    requires { step < 16 }
    ensures { result ≡ table (λ i. get_or block (i * step % 16) 0) 16 }
{
    array::from_fn(|i| block[i * step % 16])
}

fn shift_rows(block: [u8; 16]) -> [u8; 16]
    ensures { result ≡ shift_rows block }
{
    turn_rows(block, 5)
}

fn inv_shift_rows(block: [u8; 16]) -> [u8; 16]
    ensures { result ≡ inv_shift_rows block }
{
    turn_rows(block, 13)
}

// The first byte of the column a b c d, mixed.
fn mix_byte(a: u8, b: u8, c: u8, d: u8) -> u8
    ensures { result ≡ mix_byte a b c d }
{
    field::double(a ^ b) ^ b ^ c ^ d
}

// Byte i is the one so many places below it in its column, around. Whole blocks are turned and then mixed place by place, which
// compiles to a few instructions on sixteen bytes at once; a loop that turned as it mixed did not.
fn turn_columns(block: [u8; 16], places: usize) -> [u8; 16]
    requires { places < 4 }
    ensures { result ≡ table (λ i. byte_at block ((i + places) % 4) (i / 4)) 16 }
{
    array::from_fn(|i| block[(i + places) % 4 + 4 * (i / 4)])
}

pub fn mix_columns(block: [u8; 16]) -> [u8; 16]
    ensures { result ≡ mix_columns block }
{
    let second = turn_columns(block, 1);
    let third = turn_columns(block, 2);
    let fourth = turn_columns(block, 3);
    // By a loop: `array::from_fn` was tried, and misses the bar of docs/DESIGN-PASS.md: an opening in Deoxys-I took an eighth more instructions.
    let mut out = [0u8; 16];
    for i in 0..16 {
        out[i] = mix_byte(block[i], second[i], third[i], fourth[i]);
    }
    out
}

// As `each_byte` of `tweakey`: one line in each, where a common one would be a public function of `octets` with a contract to prove for both.
fn double_bytes(block: [u8; 16]) -> [u8; 16]
    ensures { result ≡ each_byte double block }
{
    array::from_fn(|i| field::double(block[i]))
}

// The rule 0E, 0B, 0D, 09 is the rule 2, 3, 1, 1 on folded columns: to each byte four times its sum with the byte two places from it.
pub fn inv_mix_columns(block: [u8; 16]) -> [u8; 16]
    ensures { result ≡ inv_mix_columns block }
{
    let opposite = turn_columns(block, 2);
    let fourfold = double_bytes(double_bytes(octets::xor_block(block, opposite)));
    mix_columns(octets::xor_block(block, fourfold))
}

// A round, the last one too: Deoxys-BC mixes in every round.
pub fn cipher_round(entries: &[u8; 256], block: [u8; 16], key: [u8; 16]) -> [u8; 16]
    requires { entries.now ≡ table sub 256 }
    ensures { result ≡ round block key }
{
    octets::xor_block(mix_columns(shift_rows(substitute(entries, block))), key)
}

// A round of the equivalent inverse cipher: the key is one that `inv_mix_columns` was applied to.
pub fn equiv_inv_cipher_round(entries: &[u8; 256], block: [u8; 16], key: [u8; 16]) -> [u8; 16]
    requires { entries.now ≡ table inv_sub 256 }
    ensures { result ≡ equiv_inv_round block key }
{
    octets::xor_block(
        inv_mix_columns(inv_shift_rows(substitute(entries, block))),
        key,
    )
}
