// The files that are given to a check.
use std::fs::File;
use std::io;
use std::io::Read;
use thiserror::Error;

// More than any image has: a larger file is refused unread.
const LIMIT: u64 = 1 << 20;

// A file that could not be read.
#[derive(Debug, Drop, Error)]
#[error("cannot read '{path}': {error}")]
pub struct Unread<'a> {
    pub path: &'a str,
    pub error: io::Error,
}

fn read_some(rt: &HostRuntime, path: &str) -> io::Result<Vec<u8>> {
    let mut bytes = Vec::new(rt.alloc());
    let mut file = File::open(rt, path)?.take(LIMIT + 1);
    file.read_to_end(&mut bytes)?;
    if bytes.len() as u64 > LIMIT {
        return Err(io::Error::from(io::ErrorKind::FileTooLarge));
    }
    Ok(bytes)
}

// The bytes of a file.
pub fn read_file<'a>(rt: &HostRuntime, path: &'a str) -> Result<Vec<u8>, Unread<'a>> {
    read_some(rt, path).map_err(|error| Unread { path, error })
}
