// The lines of a text, the fields of a line, and the numbers and bytes that fields spell.
ghost use Rattle.std.specs.Prelude.{◌≡◌, [], ◌∷◌, suc, ◌+◌, ◌≤◌, ◌<◌, eqb, ltb, length, drop, IfSome};
ghost use Rattle.std.specs.List.{position};
ghost use Rattle.io.specs.Digits.{hex_digit_ascii};
ghost use Rattle.lists.specs.Text.{index_of, part_of, count_of, line_of, lines_of, field_of, is_case, with_digit, number_of, hexadecimal, spelling, Fresh, Adds};

// Past this number a further digit is not taken.
const MOST: usize = 99999999;

// Where a byte first stands in a text, if it does.
fn first(text: &[u8], byte: u8) -> Option<usize>
    ensures { result ≡ position (λ x. eqb x byte) text.now }
{
    text.iter().position(|b| *b == byte)
}

// Where a byte first stands in a text, or the text's end.
fn place(text: &[u8], byte: u8) -> usize
    ensures value { result ≡ index_of byte text.now }
    ensures upper_bound { result ≤ length text.now }
{
    first(text, byte).unwrap_or(text.len())
}

// The same from a place on.
pub fn find(text: &[u8], byte: u8, from: usize) -> usize
    requires { from ≤ length text.now }
    ensures value { result ≡ from + index_of byte (drop from text.now) }
    ensures lower_bound { from ≤ result }
    ensures upper_bound { result ≤ length text.now }
{
    from + place(&text[from..], byte)
}

// Where the part after the one at `from` starts, or the text's end.
fn next(text: &[u8], separator: u8, from: usize) -> usize
    requires { from ≤ length text.now }
    ensures upper_bound { result ≤ length text.now }
    ensures text_value { drop result text.now ≡ drop (suc (index_of separator (drop from text.now))) (drop from text.now) }
{
    match first(&text[from..], separator) {
        Some(n) => from + n + 1,
        None => text.len(),
    }
}

// Part `k` of a text, counted from zero, with a separator between two parts; empty where the text has no such part.
fn part(text: &[u8], separator: u8, k: usize) -> &[u8]
    ensures { result.now ≡ part_of separator k text.now }
{
    let mut from = 0;
    // A turn for each part before: `split(..).nth(k)` takes up to 2.6 times as long.
    for _ in 0..k {
        from = next(text, separator, from);
    }
    &text[from..find(text, separator, from)]
}

// Line `i` of a text, counted from zero.
pub fn line(text: &[u8], i: usize) -> &[u8]
    ensures { result.now ≡ line_of i text.now }
{
    part(text, b'\n', i)
}

// Field `k` of a line, counted from zero: fields stand one space apart.
pub fn field(line: &[u8], k: usize) -> &[u8]
    ensures { result.now ≡ field_of k line.now }
{
    part(line, b' ', k)
}

// How often a byte stands in a text.
fn count(text: &[u8], byte: u8) -> usize
    ensures value { result ≡ count_of byte text.now }
    ensures upper_bound { result ≤ length text.now }
{
    let mut n = 0;
    // A loop: the compiler makes of it one over four bytes at once, and not of `filter(..).count()`.
    for b in text {
        if *b == byte {
            n += 1;
        }
    }
    n
}

// How many lines a text has, the one after the last line end counted.
pub fn line_count(text: &[u8]) -> usize
    ensures { result ≡ lines_of text.now }
{
    count(text, b'\n') + 1
}

// Whether the line is a case: it is not empty and no comment.
#[tactic(auto, unfolding(crate::specs::Text::is_case))]
pub fn is_case(line: &[u8]) -> bool
    ensures { result ≡ is_case line.now }
{
    !line.is_empty() && line[0] != b'#'
}

// Whether the line has no field past the first so many, not even an empty one.
pub fn ends(line: &[u8], fields: usize) -> bool
    ensures { result ≡ ltb (count_of 32 line.now) fields }
{
    count(line, b' ') < fields
}

#[tactic(auto, unfolding(crate::specs::Text::with_digit))]
fn with_digit(n: usize, byte: u8) -> Option<usize>
    ensures { result ≡ with_digit n byte }
{
    match byte {
        b'0'..=b'9' if n <= MOST => Some(n * 10 + usize::from(byte - b'0')),
        _ => None,
    }
}

// The number that a field spells in decimal.
pub fn decimal(field: &[u8]) -> Option<usize>
    ensures { result ≡ number_of field.now }
{
    if field.is_empty() {
        return None;
    }
    let mut n = 0;
    for byte in field {
        n = with_digit(n, *byte)?;
    }
    Some(n)
}

// What a hexadecimal digit stands for, in lower case as the lists have it.
#[tactic(auto, using(crate::proofs::Spelling::glyph_low, crate::proofs::Spelling::glyph_high))]
fn digit(byte: u8) -> Option<u8>
    ensures small { IfSome result (λ d. d < 16) }
    ensures value { IfSome result (λ d. hex_digit_ascii d ≡ byte) }
{
    match byte {
        b'0'..=b'9' => Some(byte - b'0'),
        b'a'..=b'f' => Some(byte - b'a' + 10),
        _ => None,
    }
}

// The bytes that a line's fields have spelled so far. An array and a length: nothing is allocated here.
#[derive(Clone, Copy)]
pub struct Spelled {
    pub bytes: [u8; 256],
    pub length: usize,
}

impl Spelled {
    // No bytes yet.
    pub fn nothing() -> Spelled
        ensures { Fresh result }
    {
        Spelled {
            bytes: [0u8; 256],
            length: 0,
        }
    }

    // One byte more, from its two digits.
    fn with_byte(mut self, high: u8, low: u8) -> Option<Spelled>
        ensures { IfSome result (λ r. Adds hexadecimal self r (high ∷ low ∷ [])) }
    {
        let byte = digit(high)? * 16 + digit(low)?;
        if self.length >= self.bytes.len() {
            return None;
        }
        self.bytes[self.length] = byte;
        self.length += 1;
        Some(self)
    }

    // Bytes more, from two digits each.
    fn with_digits(mut self, field: &[u8]) -> Option<Spelled>
        requires { self.length ≤ 256 }
        ensures { IfSome result (λ r. Adds hexadecimal self r field.now) }
    {
        let mut left = field;
        while let [high, low, rest @ ..] = left {
            self = self.with_byte(*high, *low)?;
            left = rest;
        }
        left.is_empty().then_some(self)
    }

    // A field more, in hexadecimal, '-' for none.
    pub fn with_field(self, field: &[u8]) -> Option<Spelled>
        ensures { IfSome result (λ r. Adds spelling self r field.now) }
    {
        if field.is_empty() || self.length > self.bytes.len() {
            return None;
        }
        if field == b"-".as_slice() {
            return Some(self);
        }
        self.with_digits(field)
    }
}
