// The tweaks of both modes, which the crate's `src/modes.rs` makes in place.

#![tactic(auto)]

ghost use Rattle.std.specs.Prelude.{◌≡◌, ◌∷◌, ◌<◌};
ghost use Rattle.tweaks.specs.Tweaks.{numbered, nonce_tweak, keystream_tweak};

// A kind in byte 0, and a block number in bytes 8 to 15.
#[tactic(auto, unfolding(crate::specs::Tweaks::numbered, octets::specs::Octets::big_endian))]
pub fn numbered(kind: u8, i: usize) -> [u8; 16]
    ensures { result ≡ numbered kind i }
{
    let mut out = [0u8; 16];
    out[0] = kind;
    out[8..].copy_from_slice(&i.to_be_bytes());
    out
}

// A byte and then a nonce of 15 bytes.
pub fn prefixed(first: u8, nonce: &[u8; 15]) -> [u8; 16]
    ensures { result ≡ first ∷ nonce.now }
{
    let mut out = [0u8; 16];
    out[0] = first;
    out[1..].copy_from_slice(nonce);
    out
}

// Deoxys-I: a kind of four bits, a nonce of 8 bytes, a block number of 60 bits.
pub fn nonce_tweak(kind: u8, nonce: &[u8; 8], i: usize) -> [u8; 16]
    requires { kind < 16 }
    ensures { result ≡ nonce_tweak kind nonce.now i }
{
    let mut out = numbered(0, i);
    let mut half = kind;
    // By the index: after a `zip` with `iter_mut` a proof knows no byte of `out`.
    for (j, byte) in nonce.iter().enumerate() {
        out[j] = half * 16 + byte / 16;
        half = byte % 16;
    }
    out[8] = half * 16 + out[8] % 16;
    out
}

// Deoxys-II: the tag with its top bit set, and the number of a keystream block XORed in.
#[tactic(auto, using(crate::proofs::Packing::top_set), unfolding(crate::specs::Tweaks::keystream_tweak, crate::specs::Tweaks::numbered))]
pub fn keystream_tweak(mut tag: [u8; 16], j: usize) -> [u8; 16]
    ensures { result ≡ keystream_tweak tag j }
{
    tag[0] |= 0x80;
    octets::xor_block(tag, numbered(0, j))
}
