// A note as it is shown between quotes, by printable bytes alone.

#![tactic(auto)]

ghost use Rattle.std.specs.Prelude.{◌≡◌, ◌++◌, ◌+◌, ◌*◌, ◌≤◌, ◌<◌, length, take};
ghost use Rattle.quoted.specs.Quoted.{digit, spelling, quoted};

// A hexadecimal digit.
#[tactic(auto, using(crate::proofs::Spellings::low_digit, crate::proofs::Spellings::high_digit))]
fn digit(value: u8) -> u8
    requires { value < 16 }
    ensures { result ≡ digit value }
{
    if value < 10 {
        b'0' + value
    } else {
        b'a' - 10 + value
    }
}

// Lays bytes at a place; where the next one goes.
fn lay<const N: usize>(destination: &mut [u8], at: usize, bytes: [u8; N]) -> usize
    requires { at + N ≤ length destination.old }
    ensures { (result ≡ at + N) × (take result destination.new ≡ take at destination.old ++ bytes.entry) }
{
    let end = at + N;
    destination[at..end].copy_from_slice(&bytes);
    end
}

// Lays the spelling of a byte at a place; where the next one goes.
#[tactic(auto, using(crate::proofs::Spellings::spellings))]
fn put(destination: &mut [u8], at: usize, byte: u8) -> usize
    requires { at + 4 ≤ length destination.old }
    ensures { (result ≤ at + 4) × (take result destination.new ≡ take at destination.old ++ spelling byte) }
{
    match byte {
        b'"' | b'\\' => lay(destination, at, [b'\\', byte]),
        b' '..=b'~' => lay(destination, at, [byte]),
        _ => lay(
            destination,
            at,
            [b'\\', b'x', digit(byte / 16), digit(byte % 16)],
        ),
    }
}

// Lays a note's spelling at the start of the destination; its length. With the last `ensures` a caller lends it without a proof file.
#[tactic(auto, using(crate::proofs::Spellings::laid_turn, crate::proofs::Spellings::laid_end))]
pub fn spell(note: &[u8], destination: &mut [u8]) -> usize
    requires { 4 * length note.now ≤ length destination.old }
    ensures destination_after { take result destination.new ≡ quoted note.now }
    ensures upper_bound { (result ≤ length destination.new) × (result ≡ length (take result destination.new)) }
{
    let mut at = 0;
    for byte in note {
        at = put(destination, at, *byte);
    }
    at
}
