//! The list that a program reads.
use std::{fs, io};

/// The text of the file, or else of standard input.
pub fn read_list(rt: &HostRuntime, path: Option<String>) -> io::Result<String> {
    match path {
        Some(path) => fs::read_to_string(rt, path),
        None => io::read_to_string(rt.alloc(), rt.stdin()),
    }
}
