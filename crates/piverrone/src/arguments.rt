// The program's arguments. Argument 0 is its name.
ghost use Rattle.piverrone.specs.Counts.{IsPrefixLen};

use std::env::FillError;
use std::rt::Env;

// Copies argument i to the start of the space, and returns its length, or 0 where there is none or it does not fit, since no word and no
// number is empty.
pub fn argument(rt: &impl Env, i: usize, space: &mut [u8]) -> usize
    ensures { IsPrefixLen result space.new }
{
    rt.arg(i, space).unwrap_or(0)
}

fn is_given(rt: &impl Env, i: usize) -> bool {
    !matches!(rt.arg(i, &mut []), Err(FillError::NotPresent))
}

// Whether there are so many arguments, the program's name among them.
pub fn is_count(rt: &impl Env, count: usize) -> bool {
    !is_given(rt, count) && (count == 0 || is_given(rt, count - 1))
}
