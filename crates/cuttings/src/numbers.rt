// The numbers in the fields of a line.
use lists::text;

pub fn at(line: &[u8], k: usize) -> Option<usize> {
    text::decimal(text::field(line, k))
}

pub fn byte_at(line: &[u8], k: usize) -> Option<u8> {
    u8::try_from(at(line, k)?).ok()
}
