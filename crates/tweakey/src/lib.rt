// The tweakey schedule: the crate's `src/deoxys_bc.rs`.

#![tactic(auto)]

ghost use Rattle.std.specs.Prelude.{◌≡◌, ◌⊎◌, ℕ, ◌+◌, ◌≤◌, ◌<◌, length, slice_index};
ghost use Rattle.octets.specs.Octets.{◌⊕◌, table};
ghost use Rattle.tweakey.specs.Tweakey.{places, h, lfsr2, lfsr3, tk2, tk3, round_constant, constant_block, flat, expanded, round_key};

use std::array;

// The expanded key: the key parts of all round keys, flat (240 or 272 bytes, the rest zero), and the number of rounds.
// Flat, as `struct deoxys_subkeys` of the C interface has it, and C may hand back any count: its bound is a `requires`, and no ghost field.
#[repr(C)]
#[derive(Clone, Copy, PartialEq, Eq)]
pub struct Subkeys {
    pub bytes: [u8; 272],
    pub rounds: usize,
}

const H_PERM: [u8; 16] = [1, 6, 11, 12, 5, 10, 15, 0, 9, 14, 3, 4, 13, 2, 7, 8];

const RCON: [u8; 17] = [
    0x2f, 0x5e, 0xbc, 0x63, 0xc6, 0x97, 0x35, 0x6a, 0xd4, 0xb3, 0x7d, 0xfa, 0xef, 0xc5, 0x91, 0x39,
    0x72,
];

// The permutation h; `perm` is H_PERM, lent by whoever takes many steps.
fn h_substitution(perm: &[u8; 16], tk: [u8; 16]) -> [u8; 16]
    requires { perm.now ≡ places }
    ensures { result ≡ h tk }
{
    array::from_fn(|i| tk[usize::from(perm[i])])
}

fn lfsr2_byte(x: u8) -> u8
    ensures { result ≡ lfsr2 x }
{
    (x << 1) | (((x >> 7) ^ (x >> 5)) & 1)
}

fn lfsr3_byte(x: u8) -> u8
    ensures { result ≡ lfsr3 x }
{
    (x >> 1) | ((x ^ (x >> 6)) << 7)
}

// Each byte replaced by what the rule gives for it. `tk.map(rule)` was tried: expanding a key took sixteen times the instructions.
fn each_byte<F: Fn(u8) -> u8>(rule: F, tk: [u8; 16]) -> [u8; 16]
    requires { F.IsAlwaysCallable rule }
    ensures { (i : ℕ) → i < 16 → F.post rule (slice_index tk i) (slice_index result i) }
{
    array::from_fn(|i| rule(tk[i]))
}

// Constant block i; `constants` is RCON, lent.
fn constant_block(constants: &[u8; 17], i: usize) -> [u8; 16]
    requires { (constants.now ≡ table round_constant 17) × (i < 17) }
    ensures { result ≡ constant_block i }
{
    let c = constants[i];
    [1, 2, 4, 8, c, c, c, c, 0, 0, 0, 0, 0, 0, 0, 0]
}

// The key parts from TK3 and TK2, for so many rounds.
fn expand(third: [u8; 16], second: [u8; 16], rounds: usize) -> Subkeys
    requires { rounds ≤ 16 }
    ensures { result ≡ record { bytes = flat (λ i. tk3 i third ⊕ tk2 i second ⊕ constant_block i) (rounds + 1); rounds = rounds } }
{
    let perm = H_PERM;
    let constants = RCON;
    let mut bytes = [0u8; 272];
    let mut t3 = third;
    let mut t2 = second;
    // By the index: after `chunks_exact_mut` a proof knows no byte of what was written. An array goes through a `next`: right from a
    // call into a local that is read again, it has no generated proof.
    for i in 0..rounds + 1 {
        let part = octets::xor_block(octets::xor_block(t3, t2), constant_block(&constants, i));
        octets::write_block(&mut bytes, 16 * i, part);
        let next3 = each_byte(lfsr3_byte, h_substitution(&perm, t3));
        t3 = next3;
        let next2 = each_byte(lfsr2_byte, h_substitution(&perm, t2));
        t2 = next2;
    }
    Subkeys { bytes, rounds }
}

// A 16-byte key is TK2, with TK3 zero; a 32-byte key is TK3 and then TK2.
pub fn precompute_subkeys(key: &[u8]) -> Subkeys
    requires { (length key.now ≡ 16) ⊎ (length key.now ≡ 32) }
    ensures { result ≡ expanded key.now }
{
    if key.len() == 16 {
        return expand([0u8; 16], octets::read_block(key, 0), 14);
    }
    expand(octets::read_block(key, 0), octets::read_block(key, 16), 16)
}

// The round keys of a tweak, flat as the key parts are.
pub fn key_schedule(k: Subkeys, tweak: [u8; 16]) -> [u8; 272]
    requires { k.rounds ≤ 16 }
    ensures { result ≡ flat (round_key k tweak) (k.rounds + 1) }
{
    let perm = H_PERM;
    let mut keys = [0u8; 272];
    let mut t = tweak;
    // By the index and a `next`, as in `expand`.
    for i in 0..k.rounds + 1 {
        let key = octets::xor_block(octets::read_block(&k.bytes, 16 * i), t);
        octets::write_block(&mut keys, 16 * i, key);
        let next = h_substitution(&perm, t);
        t = next;
    }
    keys
}
