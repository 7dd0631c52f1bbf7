// What both modes share: Auth, as `compute_ad_tag` of the crate's `src/modes.rs` has it, and what a mode answers. Here and in each mode every
// block cipher call is one of `deoxys_bc::encipher` and `deoxys_bc::decipher`, its block used and its count handed on.

#![tactic(auto)]

ghost use Rattle.std.specs.Prelude.{◌≡◌, ◌+◌, ◌/◌, ◌≤◌, ◌<◌, ◌^◌, length};
ghost use Rattle.octets.specs.Octets.{◌⊕◌, zero_block};
ghost use Rattle.deoxys_bc.specs.Cipher.{encipher};
ghost use Rattle.modes.specs.Rows.{auth_rows, data_rows, absorbed};

use deoxys_bc::Count;
use tweakey::Subkeys;

// Bytes, as a tweak has them, here and in both modes: an enum would be turned into them at once.
const TWEAK_AD: u8 = 0x20;

const TWEAK_AD_LAST: u8 = 0x60;

// A sum of blocks, and the calls made so far. `Tagged` and `deoxys_bc::Called` are a block and a count too: each field's name says which block.
#[derive(Clone, Copy)]
pub struct Tally {
    pub sum: [u8; 16],
    pub count: Count,
}

// A tag, and the calls made.
#[derive(Clone, Copy)]
pub struct Tagged {
    pub tag: [u8; 16],
    pub count: Count,
}

// One call: what the cipher gives is XORed into the sum.
fn absorb(k: Subkeys, tweak: [u8; 16], block: [u8; 16], tally: Tally) -> Tally
    requires { (k.rounds ≤ 16) × (tally.count.rows + 1 < 2 ^ 64) }
    ensures { result ≡ record { sum = tally.sum ⊕ encipher k tweak block; count = record { rows = tally.count.rows + 1 } } }
{
    let called = deoxys_bc::encipher(k, tweak, block, tally.count);
    Tally {
        sum: octets::xor_block(tally.sum, called.block),
        count: called.count,
    }
}

// Auth over a text, full blocks with one tweak byte 0 and a partial one with another.
pub fn authenticate(k: Subkeys, full: u8, partial: u8, text: &[u8], mut tally: Tally) -> Tally
    requires { (k.rounds ≤ 16) × (tally.count.rows + length text.now / 16 + 2 < 2 ^ 64) }
    ensures { result ≡ record {
      sum = absorbed tally.sum (auth_rows k full partial text.now);
      count = record { rows = tally.count.rows + length (auth_rows k full partial text.now) };
    } }
{
    let (blocks, rest) = text.as_chunks::<16>();
    for (i, block) in blocks.iter().enumerate() {
        tally = absorb(k, tweaks::numbered(full, i), *block, tally);
    }
    if !rest.is_empty() {
        let tweak = tweaks::numbered(partial, blocks.len());
        return absorb(k, tweak, octets::pad(rest), tally);
    }
    tally
}

// The crate's `compute_ad_tag`: Auth over the associated data, and the first calls that are counted.
#[tactic(auto, unfolding(octets::specs::Octets::zero_block))]
pub fn compute_ad_tag(k: Subkeys, ad: &[u8]) -> Tally
    requires { (k.rounds ≤ 16) × (length ad.now / 16 + 2 < 2 ^ 64) }
    ensures { result ≡ record {
      sum = absorbed zero_block (data_rows k ad.now);
      count = record { rows = length (data_rows k ad.now) };
    } }
{
    authenticate(
        k,
        TWEAK_AD,
        TWEAK_AD_LAST,
        ad,
        Tally {
            sum: [0u8; 16],
            count: Count { rows: 0 },
        },
    )
}
