// The cases of a list, one after the other. What a case is, and how many a line has, the program says.
ghost use Rattle.std.specs.Prelude.{◌≡◌, ◌<◌, IfOk};

use crate::{files, report};
use differences::tally::Tally;
use lists::text;
use std::fmt::Display;
use std::io;
use std::rt::Files;

// No list is as long.
const ROOM: usize = 65536;

// The lines of a list that are cases, counted from one. Line, number and tally are no struct: each function that is handed them takes them apart.
#[tactic(auto, using(differences::proofs::Differences::has_a_case))]
fn lines<C: Copy, F: FnMut(&[u8], usize, Tally<C>) -> Tally<C>>(
    text: &[u8],
    mut replayed: F,
) -> Tally<C>
    requires { F.IsAlwaysCallable replayed }
    ensures { result.differ ≡ 0 → 0 < result.cases }
{
    let mut tally = Tally::new();
    // By number: `text::line` promises which line each is, and `lines_joined` of `lists` that none is left out.
    for i in 0..text::line_count(text) {
        let line = text::line(text, i);
        if text::is_case(line) {
            tally = replayed(line, i + 1, tally);
        }
    }
    tally.with_a_case()
}

// Replays the list in a file and writes a line on it: where nothing differs there was a case. `replayed` is handed a line, its number and the
// tally so far, and counts its cases.
pub fn list<C: Copy + Display, F: FnMut(&[u8], usize, Tally<C>) -> Tally<C> + Drop>(
    rt: &(impl Files + Print + Eprint),
    name: &[u8],
    replayed: F,
) -> io::Result<Tally<C>>
    requires { F.IsAlwaysCallable replayed }
    ensures { IfOk result (λ t. t.differ ≡ 0 → 0 < t.cases) }
{
    let mut text = [0u8; ROOM];
    let n = files::read(rt, name, &mut text)?;
    report::list(rt, name, lines(&text[..n], replayed))
}
