// A list is a file. Nothing here says what it holds: that is read as text.
ghost use Rattle.std.specs.Prelude.{◌≡◌, length, IfOk};
ghost use Rattle.io.specs.Counts.{IsPrefixLen};

use std::fs::File;
use std::io::Read;
use std::rt::Files;
use std::{io, str};

// Reads until the text is full or the reader ends, and how many bytes it gave.
fn filled(file: &mut impl Read, text: &mut [u8]) -> io::Result<usize>
    ensures { IfOk result (λ n. IsPrefixLen n text.new) }
{
    let mut done = 0;
    // A count: a reader says how many bytes it gave, and std's readers of a whole file allocate.
    while done < text.len() {
        let n = file.read(&mut text[done..])?;
        if n == 0 {
            break;
        }
        done += n;
    }
    Ok(done)
}

// The file, or none and a word on standard error where it can't be opened: std's paths are text. Where standard error can't be written, there
// is nobody to tell. The path is bytes, for `read` takes any.
fn opened<R: Files + Eprint>(rt: &R, path: &[u8]) -> Option<R::File> {
    let Ok(path) = str::from_utf8(path) else {
        let _ = eprintln!(rt; "a list's name is no text");
        return None;
    };
    match File::open(rt, path) {
        Ok(file) => Some(file),
        Err(error) => {
            let _ = eprintln!(rt; "{path}: {error}");
            None
        }
    }
}

// The file's bytes at the start of `text`, and how many; none where it can't be opened or may be longer than `text`, and no Option, for a list
// without a case is told as one.
pub fn read<R: Files + Eprint>(rt: &R, path: &[u8], text: &mut [u8]) -> io::Result<usize>
    ensures count { IfOk result (λ n. IsPrefixLen n text.new) }
    ensures kept_length { length text.new ≡ length text.old }
{
    let Some(mut file) = opened(rt, path) else {
        return Ok(0);
    };
    let n = filled(&mut file, text)?;
    if n == text.len() {
        return Ok(0);
    }
    Ok(n)
}
