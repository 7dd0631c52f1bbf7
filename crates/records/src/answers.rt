// What a call answered, beside the answers that stand on the line. Those that the line leaves out at its end are 0.
ghost use Rattle.std.specs.Prelude.{◌≤◌};

use crate::spelling;
use differences::tally::What;
use lists::text;
use std::iter;

// As many as the reader of one record has. Those that a call has not are 0 too.
const ANSWERS: usize = 11;

// The first answer that differs from those in field `first` and after it, and last the buffer. The first is the number; the others are
// counts, lengths and places.
pub fn differ(line: &[u8], first: usize, given: &[usize], buffer: bool) -> Option<What>
    requires { first ≤ 9 }
{
    if text::ends(line, first) || !text::ends(line, first + ANSWERS) {
        return Some(What::Form);
    }
    let given = given.iter().copied().chain(iter::repeat(0));
    for (k, answer) in (first..first + ANSWERS).zip(given) {
        match spelling::number_at(line, k) {
            None => return Some(What::Form),
            Some(wanted) if wanted == answer => {}
            Some(_) if k == first => return Some(What::Number),
            Some(_) => return Some(What::Rows),
        }
    }
    if buffer { None } else { Some(What::Buffer) }
}
