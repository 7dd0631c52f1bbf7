// Blocks of sixteen bytes in a slice: read, written, XORed, padded.

#![tactic(auto)]

ghost use Rattle.std.specs.Prelude.{◌≡◌, ◌++◌, ◌+◌, ◌≤◌, ◌<◌, length, take, drop, replicate};
ghost use Rattle.octets.specs.Octets.{◌⊕◌, padded, same};

use std::array;

// The block that starts at a place of the slice.
pub fn read_block(s: &[u8], at: usize) -> [u8; 16]
    requires { at + 16 ≤ length s.now }
    ensures { result ≡ take 16 (drop at s.now) }
{
    let mut block = [0u8; 16];
    block.copy_from_slice(&s[at..at + 16]);
    block
}

// The block is laid into the slice at a place; the rest stays.
pub fn write_block(s: &mut [u8], at: usize, block: [u8; 16])
    requires { at + 16 ≤ length s.old }
    ensures { s.new ≡ take at s.old ++ (block ++ drop (at + 16) s.old) }
{
    s[at..at + 16].copy_from_slice(&block);
}

pub fn xor_block(a: [u8; 16], b: [u8; 16]) -> [u8; 16]
    ensures { result ≡ a ⊕ b }
{
    array::from_fn(|i| a[i] ^ b[i])
}

// A part no longer than a block, with the block's first bytes XORed in.
pub fn xor_into(part: &mut [u8], block: [u8; 16])
    requires { length part.old ≤ 16 }
    ensures { part.new ≡ part.old ⊕ block }
{
    // By the index: after a `zip` with `iter_mut` a proof knows no byte of the part.
    for (i, x) in part.iter_mut().enumerate() {
        *x ^= block[i];
    }
}

// A partial block, 0x80, and zeros.
#[tactic(auto, using(crate::proofs::Parts::padded_is))]
pub fn pad(part: &[u8]) -> [u8; 16]
    requires { length part.now < 16 }
    ensures { result ≡ padded part.now }
{
    let mut block = [0u8; 16];
    block[..part.len()].copy_from_slice(part);
    block[part.len()] = 0x80;
    block
}

// Whether two blocks are the same. Every byte is compared, whatever the first ones show; nothing is claimed about time.
#[tactic(auto, using(crate::proofs::Sameness::no_difference))]
pub fn same_block(a: [u8; 16], b: [u8; 16]) -> bool
    ensures { result ≡ same a b }
{
    let difference = xor_block(a, b).iter().fold(0, |seen, x| seen | x);
    difference == 0
}

// Every byte zero.
pub fn clear(s: &mut [u8])
    ensures { s.new ≡ replicate (length s.old) 0 }
{
    s.fill(0);
}
