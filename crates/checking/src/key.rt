// The secret key of the sums.
use crate::error::CheckError;
use std::fs;
use std::io::{ErrorKind, Read};

pub const KEY_BYTES: usize = 32;

const RANDOM_BYTES: &str = "/dev/urandom";

// It is never shown, so it has no Debug.
#[derive(Drop)]
pub struct SumKey([u8; KEY_BYTES]);

impl SumKey {
    pub fn bytes(&self) -> &[u8; KEY_BYTES] {
        &self.0
    }
}

// A key file has the key and nothing else; without one the key is drawn afresh.
pub fn sum_key<'a>(rt: &HostRuntime, file: Option<&'a str>) -> Result<SumKey, CheckError<'a>> {
    match file {
        None => drawn_key(rt),
        Some(name) => key_in(rt, name),
    }
}

fn drawn_key<'a>(rt: &HostRuntime) -> Result<SumKey, CheckError<'a>> {
    let unread = |e| CheckError::Io(RANDOM_BYTES, e);
    let mut source = fs::open(rt, RANDOM_BYTES).map_err(unread)?;
    let mut key = [0u8; KEY_BYTES];
    source.read_exact(&mut key).map_err(unread)?;
    Ok(SumKey(key))
}

// The key, if it is all that can be read.
fn key_in<'a>(rt: &HostRuntime, name: &'a str) -> Result<SumKey, CheckError<'a>> {
    let mut source = fs::open(rt, name).map_err(|e| CheckError::Io(name, e))?;
    let mut key = [0u8; KEY_BYTES];
    source.read_exact(&mut key).map_err(|e| match e.kind() {
        ErrorKind::UnexpectedEof => CheckError::KeyLength(name),
        _ => CheckError::Io(name, e),
    })?;
    let mut more = [0u8; 1];
    match source.read(&mut more) {
        Ok(0) => Ok(SumKey(key)),
        Ok(_) => Err(CheckError::KeyLength(name)),
        Err(e) => Err(CheckError::Io(name, e)),
    }
}
