// A number as an argument spells it.

#![tactic(auto)]

ghost use Rattle.std.specs.Prelude.{◌≡◌};
ghost use Rattle.numerals.specs.Numbers.{number_of};

// One above the limit: no larger length is told from it.
const MOST: usize = 1048577;

// The number that digits spell, or MOST where it is more. None where a byte is no digit, or there is none.
pub fn spelt(text: &[u8]) -> Option<usize>
    ensures { result ≡ number_of text.now }
{
    if text.is_empty() {
        return None;
    }
    let mut value = 0usize;
    for byte in text {
        if !byte.is_ascii_digit() {
            return None;
        }
        value = (value * 10 + usize::from(byte - b'0')).min(MOST);
    }
    Some(value)
}
