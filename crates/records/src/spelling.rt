// The numbers and the bytes that the fields of a line spell.
use differences::pattern;
use lists::text;
use lists::text::Spelled;

// The number that a field spells in decimal, or by the word for the greatest.
fn number(field: &[u8]) -> Option<usize> {
    match field {
        b"max" => Some(usize::MAX),
        _ => text::decimal(field),
    }
}

// The number in field `k`, or 0 where the line has no such field.
pub fn number_at(line: &[u8], k: usize) -> Option<usize> {
    if text::ends(line, k) {
        return Some(0);
    }
    number(text::field(line, k))
}

// So many bytes of the pattern; where the next part goes.
fn run(n: usize, room: &mut [u8], at: usize) -> Option<usize> {
    let to = at.checked_add(n)?;
    pattern::fill(room.get_mut(at..to)?, pattern::DATA);
    Some(to)
}

// All bytes so far, again and again to the end of so many.
fn repeated(to: usize, room: &mut [u8], at: usize) -> Option<usize> {
    let text = room.get_mut(..to)?;
    // By the index: `zip` with a `cycle` of the bytes so far takes two to three times as long, `chunks_mut` of their length two to four times.
    for i in at..to {
        text[i] = text[i - at];
    }
    (at <= to).then_some(to)
}

// The bytes that a part spells in hexadecimal.
fn put(word: &[u8], room: &mut [u8], at: usize) -> Option<usize> {
    let spelled = Spelled::nothing().with_field(word)?;
    let bytes = spelled.bytes.get(..spelled.length)?;
    let to = at.checked_add(bytes.len())?;
    room.get_mut(at..to)?.copy_from_slice(bytes);
    Some(to)
}

fn part(word: &[u8], room: &mut [u8], at: usize) -> Option<usize> {
    match word.split_first() {
        Some((b'~', count)) => run(number(count)?, room, at),
        Some((b'>', end)) => repeated(number(end)?, room, at),
        _ => put(word, room, at),
    }
}

// Lays the text that a field spells into the room from a place on; where it ends.
pub fn laid(field: &[u8], room: &mut [u8], from: usize) -> Option<usize> {
    let mut to = from;
    for word in field.split(|byte| *byte == b'+') {
        to = part(word, room, to)?;
    }
    Some(to)
}
