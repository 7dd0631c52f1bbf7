// Arguments that are numbers.
use crate::arguments;
use std::rt::Env;

// Argument i as a number.
pub fn number_named(rt: &impl Env, i: usize) -> Option<usize> {
    let mut space = [0u8; 4096];
    let n = arguments::argument(rt, i, &mut space);
    numerals::spelt(&space[..n])
}

// Argument i as a number below 256, or 0: what is no suite's the library refuses.
pub fn suite_named(rt: &impl Env, i: usize) -> u8 {
    number_named(rt, i)
        .and_then(|n| u8::try_from(n).ok())
        .unwrap_or(0)
}
