// Why a log could not be checked.
use logfile::LineRefusal;
use std::{fmt, io};

// Each with the name of what it is about.
#[derive(Debug, Drop)]
pub enum CheckError<'a> {
    Io(&'a str, io::Error),
    KeyLength(&'a str),
    NoMemoryToRead(&'a str),
    NoMemoryForLimits(&'a str),
    LimitsOutOfRange(&'a str),
    FirstLine(&'a str, LineRefusal),
}

impl fmt::Display for CheckError<'_> {
    fn fmt<W: fmt::Write>(&self, f: &mut fmt::Formatter<W>) -> fmt::Result {
        match self {
            CheckError::Io(name, error) => write!(f, "{name}: {error}"),
            CheckError::KeyLength(name) => write!(f, "{name}: a key file has exactly 32 bytes"),
            CheckError::NoMemoryToRead(name) => write!(f, "{name}: no memory to read it"),
            CheckError::NoMemoryForLimits(name) => {
                write!(f, "{name}: no memory for the limits in its first line")
            }
            CheckError::LimitsOutOfRange(name) => {
                write!(f, "{name}: the limits in its first line are out of range")
            }
            CheckError::FirstLine(name, refusal) => write!(f, "{name}: {refusal}"),
        }
    }
}
