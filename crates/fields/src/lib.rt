// One field of the house record, request b of document 02: read from the bytes left, and laid into a destination.

#![tactic(auto)]

ghost use Rattle.std.specs.Prelude.{◌≡◌, ◌+◌, ◌≤◌, ◌<◌, eqb, length, get_or};
ghost use Rattle.fields.specs.Fields.{between, number2, field};
ghost use Rattle.fields.specs.Answers.{number_of, laid_at, FieldRead, Tested};

// What refuses a field, in the order of the checks; missing bytes come first and last but one.
#[derive(Clone, Copy, Debug, PartialEq, Eq)]
pub enum Refused {
    Missing,
    WrongTag,
    WrongLength,
    OutOfRange,
}

impl Refused {
    // The number of document 02.
    pub fn number(self) -> u8
        ensures { result ≡ number_of self }
    {
        match self {
            Refused::Missing => 10,
            Refused::WrongTag => 11,
            Refused::WrongLength => 12,
            Refused::OutOfRange => 13,
        }
    }
}

// A field's tag and length.
const HEAD_BYTES: usize = 3;

// The number of two bytes, the higher first.
pub fn pair(s: &[u8], at: usize) -> u16
    requires { at + 1 < length s.now }
    ensures { result ≡ number2 (get_or s.now at 0) (get_or s.now (at + 1) 0) }
{
    u16::from_be_bytes([s[at], s[at + 1]])
}

// Refuses a value outside its bounds.
fn outside(value: usize, least: usize, greatest: usize, refused: Refused) -> Result<(), Refused>
    ensures { Tested (between least greatest value) refused result }
{
    if value < least || greatest < value {
        return Err(refused);
    }
    Ok(())
}

// A suite's or a row's number: both count from one.
pub fn range_refusal(value: usize, greatest: usize) -> Result<(), Refused>
    ensures { Tested (between 1 greatest value) Refused.OutOfRange result }
{
    outside(value, 1, greatest, Refused::OutOfRange)
}

fn tag_refusal(found: u8, tag: u8) -> Result<(), Refused>
    ensures { Tested (eqb found tag) Refused.WrongTag result }
{
    if found != tag {
        return Err(Refused::WrongTag);
    }
    Ok(())
}

// The field that the bytes left begin with, all but its range: how many bytes it has after its head.
#[tactic(auto, using(crate::proofs::OneField::in_order))]
pub fn read_field(left: &[u8], tag: u8, least: usize, greatest: usize) -> Result<usize, Refused>
    ensures { FieldRead tag least greatest left.now result }
{
    if left.len() < HEAD_BYTES {
        return Err(Refused::Missing);
    }
    let bytes = usize::from(pair(left, 1));
    tag_refusal(left[0], tag)?;
    outside(bytes, least, greatest, Refused::WrongLength)?;
    outside(bytes, 0, left.len() - HEAD_BYTES, Refused::Missing)?;
    Ok(bytes)
}

// A part of the body's length becomes the body. By a loop: where the length is no constant `copy_from_slice` calls C's `memmove`, and the
// archive asks C for `memcpy` and `memset` alone.
fn overwrite(part: &mut [u8], body: &[u8])
    requires { length part.old ≡ length body.now }
    ensures { part.new ≡ body.now }
{
    for (i, byte) in part.iter_mut().enumerate() {
        *byte = body[i];
    }
}

// Bytes laid at a place; where the next ones go.
pub fn put(destination: &mut [u8], at: usize, body: &[u8]) -> usize
    requires { at + length body.now ≤ length destination.old }
    ensures value { result ≡ at + length body.now }
    ensures destination_after { destination.new ≡ laid_at at body.now destination.old }
{
    let next = at + body.len();
    overwrite(&mut destination[at..next], body);
    next
}

// A field laid at a place; where the next one goes.
pub fn put_field(destination: &mut [u8], at: usize, tag: u8, body: &[u8]) -> usize
    requires room { at + 3 + length body.now ≤ length destination.old }
    requires in_two_bytes { length body.now < 65536 }
    ensures value { result ≡ at + 3 + length body.now }
    ensures destination_after { destination.new ≡ laid_at at (field tag body.now) destination.old }
{
    let [high, low] = (body.len() as u16).to_be_bytes();
    let at = put(destination, at, &[tag, high, low]);
    put(destination, at, body)
}
