// Files that a program reads.
#![tactic(auto)]

use std::io::ErrorKind;
use std::{fs, io};

// The bytes of a file; a missing file counts as an empty one.
pub fn read_or_empty(rt: &HostRuntime, path: &str) -> io::Result<Vec<u8>> {
    match fs::read(rt, path) {
        Ok(bytes) => Ok(bytes),
        Err(error) if error.kind() == ErrorKind::NotFound => Ok(Vec::new(rt.alloc())),
        Err(error) => Err(error),
    }
}
