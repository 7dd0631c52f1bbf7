// What is written of a list, and of all lists of a program.
ghost use Rattle.std.specs.Prelude.{◌≡◌, IfOk};

use differences::tally::{Difference, Tally};
use std::fmt::Display;
use std::io;

// How many differ, and the first. A tally of two lists may differ and have no first: it keeps that of the one alone.
fn write_differences<C: Copy + Display>(
    rt: &impl Print,
    differ: usize,
    first: Option<Difference<C>>,
) -> io::Result<()> {
    if differ == 0 {
        return Ok(());
    }
    print!(rt; ", {differ} differ")?;
    match first {
        Some(first) => print!(rt; ", first at {first}"),
        None => Ok(()),
    }
}

// A line for a list.
pub fn list<C: Copy + Display>(
    rt: &impl Print,
    name: &[u8],
    tally: Tally<C>,
) -> io::Result<Tally<C>>
    ensures { IfOk result (λ t. t ≡ tally) }
{
    rt.write_all(name)?;
    print!(rt; ": {} cases, {} calls compared", tally.cases, tally.calls)?;
    write_differences(rt, tally.differ, tally.first)?;
    println!(rt)?;
    Ok(tally)
}

// The last line.
pub fn total<C: Copy>(rt: &impl Print, tally: Tally<C>) -> io::Result<Tally<C>>
    ensures { IfOk result (λ t. t ≡ tally) }
{
    println!(rt;
        "{} cases, {} calls, {} differ",
        tally.cases, tally.calls, tally.differ
    )?;
    Ok(tally)
}
