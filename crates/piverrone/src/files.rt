// Files that the arguments name: read whole or by pieces, and written beside their place and then put there.
ghost use Rattle.std.specs.Prelude.{◌≡◌, ◌+◌, ◌≤◌, ◌<◌, length, take, None, IfSome};
ghost use Rattle.std.specs.Io.{ReadsAtMost};
ghost use Rattle.piverrone.specs.Counts.{IsPrefixLen};
ghost use Rattle.piverrone.specs.Paths.{part_of};

use crate::{places, words};
use std::fs::{OpenFile, OpenOptions, Permissions};
use std::io::{Read, Write};
use std::os::unix::fs::{OpenOptionsExt, PermissionsExt};
use std::rt::{Env, Files};
use std::{fs, io, str};

// A path and the 0 after it.
pub const PATH_SPACE: usize = 4096;

// With `.part` after it and a 0 after that, OUT is still a path.
pub const OUT_SPACE: usize = 4090;

pub const PART_SPACE: usize = 4095;

// Read and written by the owner, and by no other.
const OWNER_ALONE: u32 = 0o600;

// What Linux answers where a path does not fit, and where bytes are no text.
const NAME_TOO_LONG: i32 = 36;

const NOT_TEXT: i32 = 84;

// A file to read, and its path.
#[derive(Drop)]
pub struct In<'a, F> {
    file: F,
    path: &'a str,
}

// The path OUT, and a file beside it to write, which takes its place in the end.
#[derive(Drop)]
pub struct Out<'a, F> {
    file: F,
    path: &'a str,
    beside: &'a str,
}

// Room for a text at the limit, the tag after it, and one byte more, by which a longer file is seen to be too long.
pub fn large_space() -> [u8; 1048593]
    ensures { 1048593 ≡ length result }
{
    [0; 1048593]
}

// Reads once.
fn read_some(file: &mut impl Read, part: &mut [u8]) -> io::Result<usize>
    ensures count { ReadsAtMost result part.new }
    ensures kept_length { length part.new ≡ length part.old }
{
    file.read(part)
}

// Reads until the buffer is full or the file ends. A `while`: std's `Read` has no method that stops at a short file's end and tells the count.
// `filled` of `replay` is private to a library that this program does not use: a crate for the two would hold this alone.
fn read_all(file: &mut impl Read, buffer: &mut [u8]) -> io::Result<usize>
    ensures count { ReadsAtMost result buffer.new }
    ensures kept_length { length buffer.new ≡ length buffer.old }
{
    let mut at: usize = 0;
    while at < buffer.len() {
        let more = read_some(file, &mut buffer[at..])?;
        if more == 0 {
            return Ok(at);
        }
        at += more;
    }
    Ok(at)
}

// Tells why an argument is no path. The usage calls it `word`.
fn not_named<T>(rt: &impl Eprint, word: &str, reason: i32) -> Option<T>
    ensures { result ≡ None }
{
    words::failed(rt, word, io::Error::from_raw_os_error(reason));
    None
}

// The bytes of argument i, in the space, or None where they do not fit, which is told.
fn given<'a>(
    rt: &(impl Env + Eprint),
    i: usize,
    word: &str,
    space: &'a mut [u8],
) -> Option<&'a [u8]>
    ensures { IfSome result (λ path. length path.now ≤ length space.old) }
{
    match rt.arg(i, space) {
        Ok(end) => Some(&space[..end]),
        Err(_) => not_named(rt, word, NAME_TOO_LONG),
    }
}

// The bytes as text, or None where they are none, which is told: std's paths are text.
fn text<'a>(rt: &impl Eprint, word: &str, bytes: &'a [u8]) -> Option<&'a str>
    ensures { IfSome result (λ path. path.now ≡ bytes.now) }
{
    match str::from_utf8(bytes) {
        Ok(path) => Some(path),
        Err(_) => not_named(rt, word, NOT_TEXT),
    }
}

// The file, or None where it can't be opened, which is told.
fn opened<R: Files + Eprint>(rt: &R, path: &str) -> Option<R::File> {
    words::or_tell(rt, path, fs::open(rt, path))
}

// Opens the file that argument i names. The usage calls that argument `word`.
pub fn open_named<'a, R: Env + Files + Eprint>(
    rt: &R,
    i: usize,
    word: &str,
    space: &'a mut [u8; PATH_SPACE],
) -> Option<In<'a, R::File>>
    ensures { IfSome result (λ file. length file.path.now ≤ 4096) }
{
    let path = given(rt, i, word, space)?;
    let path = text(rt, word, path)?;
    let file = opened(rt, path)?;
    Some(In { file, path })
}

// Reads until the buffer is full or the file ends. None where that fails, which is told with the file's name.
pub fn read_from<F: Read>(
    rt: &impl Eprint,
    file: &mut In<'_, F>,
    buffer: &mut [u8],
) -> Option<usize>
    ensures count { IfSome result (λ count. IsPrefixLen count buffer.new) }
    ensures kept_length { length buffer.new ≡ length buffer.old }
{
    words::or_tell(rt, file.path, read_all(&mut file.file, buffer))
}

// Reads the file that argument i names, as far as the buffer goes.
pub fn read_named(
    rt: &(impl Env + Files + Eprint),
    i: usize,
    word: &str,
    buffer: &mut [u8],
) -> Option<usize>
    ensures count { IfSome result (λ count. IsPrefixLen count buffer.new) }
    ensures kept_length { length buffer.new ≡ length buffer.old }
{
    let mut space = [0u8; PATH_SPACE];
    let mut file = open_named(rt, i, word, &mut space)?;
    read_from(rt, &mut file, buffer)
}

// The path and then `.part`.
fn named_beside(path: &[u8], beside: &mut [u8]) -> usize
    requires { length path.now + 5 ≤ length beside.old }
    ensures in_bounds { IsPrefixLen result beside.new }
    ensures name { take result beside.new ≡ part_of path.now }
{
    let dot = path.len();
    let end = dot + 5;
    beside[..dot].copy_from_slice(path);
    beside[dot..end].copy_from_slice(b".part");
    end
}

// Gives a new file to its owner alone, or tells what failed, and then it is gone.
fn owned<R: Files + Eprint>(rt: &R, path: &str, file: R::File) -> Option<R::File> {
    let answer = file.set_permissions(Permissions::from_mode(OWNER_ALONE));
    if words::or_tell(rt, path, answer).is_none() {
        drop(file);
        let _ = fs::remove_file(rt, path);
        return None;
    }
    Some(file)
}

// Makes a file that is its owner's alone before a byte is in it. None where that fails, which is told.
fn created<R: Files + Eprint>(rt: &R, path: &str) -> Option<R::File> {
    let mut how = OpenOptions::new();
    how.write(true).create_new(true).mode(OWNER_ALONE);
    let file = words::or_tell(rt, path, how.open(rt, path))?;
    owned(rt, path, file)
}

// The same beside a path whose place a new file may take.
fn created_beside<R: Files + Eprint>(rt: &R, path: &str, beside: &str) -> Option<R::File>
    requires { length path.now < 4096 }
{
    places::free(rt, path)?;
    created(rt, beside)
}

// Makes a file beside the one that argument i, OUT, names, which stays as it is.
pub fn begin_named<'a, R: Env + Files + Eprint>(
    rt: &R,
    i: usize,
    space: &'a mut [u8; OUT_SPACE],
    part_space: &'a mut [u8; PART_SPACE],
) -> Option<Out<'a, R::File>>
    ensures in_space { IfSome result (λ out. length out.path.now ≤ 4090) }
    ensures is_beside { IfSome result (λ out. out.beside.now ≡ part_of out.path.now) }
{
    let path = given(rt, i, "OUT", space)?;
    let end = named_beside(path, part_space);
    let beside = text(rt, "OUT", &part_space[..end])?;
    let path = text(rt, "OUT", path)?;
    let file = created_beside(rt, path, beside)?;
    Some(Out { file, path, beside })
}

// Writes at the file's end, or tells what failed.
pub fn write_to<F: Write>(rt: &impl Eprint, out: &mut Out<'_, F>, part: &[u8]) -> Option<()> {
    words::or_tell(rt, out.beside, out.file.write_all(part))
}

// Forces what is whole to the device, closes, and puts it in OUT's place.
fn put_in_place<R: Files + Eprint, T: Drop>(
    rt: &R,
    out: Out<'_, R::File>,
    whole: Option<T>,
) -> Option<T> {
    let Out { file, path, beside } = out;
    let value = whole?;
    words::or_tell(rt, beside, file.sync_all())?;
    drop(file);
    words::or_tell(rt, path, fs::rename(rt, beside, path))?;
    Some(value)
}

// Puts what is whole in OUT's place. Where it is not, or that fails, which is told, the file beside OUT is removed.
pub fn end<R: Files + Eprint, T: Drop>(
    rt: &R,
    out: Out<'_, R::File>,
    whole: Option<T>,
) -> Option<T> {
    let beside = out.beside;
    let put = put_in_place(rt, out, whole);
    if put.is_none() {
        let _ = fs::remove_file(rt, beside);
    }
    put
}

fn write_both<F: Write>(
    rt: &impl Eprint,
    out: &mut Out<'_, F>,
    body: &[u8],
    tail: &[u8],
) -> Option<()> {
    write_to(rt, out, body)?;
    write_to(rt, out, tail)
}

// Writes the file that argument i, OUT, names, or tells what failed.
pub fn write_named<R: Env + Files + Eprint>(
    rt: &R,
    i: usize,
    body: &[u8],
    tail: &[u8],
) -> Option<()> {
    let mut space = [0u8; OUT_SPACE];
    let mut part_space = [0u8; PART_SPACE];
    let mut out = begin_named(rt, i, &mut space, &mut part_space)?;
    let whole = write_both(rt, &mut out, body, tail);
    end(rt, out, whole)
}
