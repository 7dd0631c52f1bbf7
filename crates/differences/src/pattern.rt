// Bytes that follow a rule, so that a large array can be held to what it was without a copy.
ghost use Rattle.std.specs.Prelude.{◌≡◌, true};
ghost use Rattle.differences.specs.Pattern.{pattern_at, Follows, Zeros, checksum_from};

pub const DATA: u8 = 34;

pub const BUFFER: u8 = 51;

// Byte `i` of the pattern with this salt.
#[tactic(auto, unfolding(crate::specs::Pattern::pattern_at))]
fn at(i: usize, salt: u8) -> u8
    ensures { result ≡ pattern_at salt i }
{
    let [low, high, ..] = i.to_le_bytes();
    low ^ high ^ salt
}

pub fn fill(s: &mut [u8], salt: u8)
    ensures { Follows salt 0 s.new }
{
    for (i, byte) in s.iter_mut().enumerate() {
        *byte = at(i, salt);
    }
}

// Whether the bytes from `from` on are the pattern's still.
pub fn stayed(s: &[u8], from: usize, salt: u8) -> bool
    ensures { (result ≡ true → Follows salt from s.now) × (Follows salt from s.now → result ≡ true) }
{
    s.iter()
        .enumerate()
        .skip(from)
        .all(|(i, byte)| *byte == at(i, salt))
}

pub fn zeros(s: &[u8]) -> bool
    ensures { (result ≡ true → Zeros s.now) × (Zeros s.now → result ≡ true) }
{
    s.iter().all(|byte| *byte == 0)
}

// A number that depends on each byte and its place.
pub fn checksum(s: &[u8]) -> usize
    ensures { result ≡ checksum_from 0 s.now }
{
    let mut sum = 0;
    for byte in s {
        sum = (sum * 31 + usize::from(*byte)) % 65521;
    }
    sum
}
