// The system's reason for a failure, in the words of the C library alone: std adds the error's number to them.
use std::fmt::Write;
use std::{fmt, io, str};

// Room for the longest reason and its number.
const SPACE: usize = 320;

const NUMBER: &str = " (os error ";

// As much as there is room for of what is written: no heap, so an array and how far it is filled.
#[derive(Drop)]
struct Line {
    bytes: [u8; SPACE],
    end: usize,
}

impl Write for Line {
    fn write_str(&mut self, text: &str) -> fmt::Result {
        for byte in text.as_bytes() {
            if let Some(place) = self.bytes.get_mut(self.end) {
                *place = *byte;
                self.end += 1;
            }
        }
        Ok(())
    }
}

impl Line {
    fn text(&self) -> &str {
        let end = self.end.min(SPACE);
        str::from_utf8(&self.bytes[..end]).unwrap_or("")
    }
}

// What stands before the number.
fn without_number(text: &str) -> &str {
    match text.split_once(NUMBER) {
        Some((reason, _)) => reason,
        None => text,
    }
}

pub fn tell(rt: &impl Eprint, error: io::Error) {
    let mut line = Line {
        bytes: [0; SPACE],
        end: 0,
    };
    let _ = write!(line, "{error}");
    let _ = rt.eprint(without_number(line.text()));
}
