// What stands at a path, so that a new file takes the place of a regular file alone.
ghost use Rattle.std.specs.Prelude.{◌<◌, length};

use crate::words;
use std::rt::Files;
use std::{fs, io};

// Nothing, where a new file may take the path's place: nothing stands there, or a regular file. Else None, and it tells why. A link is a link.
pub fn free(rt: &(impl Files + Eprint), path: &str) -> Option<()>
    requires { length path.now < 4096 }
{
    match fs::symlink_metadata(rt, path) {
        Ok(about) if about.is_file() => Some(()),
        Ok(_) => {
            words::not_regular(rt, path);
            None
        }
        Err(error) if error.kind() == io::ErrorKind::NotFound => Some(()),
        Err(error) => {
            words::failed(rt, path, error);
            None
        }
    }
}
