// The block cipher Deoxys-BC: the block routines of the crate's `src/lib.rs` over the schedule of its `src/deoxys_bc.rs`.

#![tactic(auto)]

ghost use Rattle.std.specs.Prelude.{◌≡◌, ◌+◌, ◌≤◌, ◌<◌, ◌^◌};
ghost use Rattle.deoxys_bc.specs.Cipher.{encipher, decipher};

use tweakey::Subkeys;

// The block cipher calls made so far. C may hand back any, so that there is room for one more is a clause, and no ghost field.
#[repr(C)]
#[derive(Clone, Copy, PartialEq, Eq)]
pub struct Count {
    pub rows: usize,
}

impl Count {
    // Called once in `encipher` and once in `decipher`, and nowhere else.
    fn raised(self) -> Count
        requires { self.rows + 1 < 2 ^ 64 }
        ensures { result ≡ record { rows = self.rows + 1 } }
    {
        Count {
            rows: self.rows + 1,
        }
    }
}

// What a call gives: the block, and the count one higher.
#[derive(Clone, Copy)]
pub struct Called {
    pub block: [u8; 16],
    pub count: Count,
}

// The crate's `encrypt_inout` of a block.
pub fn encipher(k: Subkeys, tweak: [u8; 16], block: [u8; 16], count: Count) -> Called
    requires { (k.rounds ≤ 16) × (count.rows + 1 < 2 ^ 64) }
    ensures { result ≡ record { block = encipher k tweak block; count = record { rows = count.rows + 1 } } }
{
    let sbox = field::sbox::entries();
    let keys = tweakey::key_schedule(k, tweak);
    let mut state = octets::xor_block(block, octets::read_block(&keys, 0));
    // By the round's number: cut by `as_chunks` the keys would be skipped here and reversed below, which is no plainer. And by a `next`: an array
    // right from a call into a local that is read again has no generated proof.
    for i in 0..k.rounds {
        let key = octets::read_block(&keys, 16 * (i + 1));
        let next = aes::cipher_round(&sbox, state, key);
        state = next;
    }
    Called {
        block: state,
        count: count.raised(),
    }
}

// The crate's `decrypt_inout` of a block: the equivalent inverse cipher, with inverse-mixed keys and a final mix.
pub fn decipher(k: Subkeys, tweak: [u8; 16], block: [u8; 16], count: Count) -> Called
    requires { (k.rounds ≤ 16) × (count.rows + 1 < 2 ^ 64) }
    ensures { result ≡ record { block = decipher k tweak block; count = record { rows = count.rows + 1 } } }
{
    let inv_sbox = field::inv_sbox::entries();
    let keys = tweakey::key_schedule(k, tweak);
    let last = octets::read_block(&keys, 16 * k.rounds);
    let mut state = aes::inv_mix_columns(octets::xor_block(block, last));
    // As in `encipher`.
    for i in (0..k.rounds).rev() {
        let key = octets::read_block(&keys, 16 * i);
        let mixed = aes::inv_mix_columns(key);
        let next = aes::equiv_inv_cipher_round(&inv_sbox, state, mixed);
        state = next;
    }
    Called {
        block: aes::mix_columns(state),
        count: count.raised(),
    }
}
