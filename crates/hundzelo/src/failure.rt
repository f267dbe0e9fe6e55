// Why the program failed.
use checking::CheckError;
use options::Misuse;
use std::{fmt, io};

#[derive(Debug, Drop)]
pub enum Failure<'a> {
    Misuse(Misuse<'a>),
    Check(CheckError<'a>),
    // What was read or written, and what the system says of it.
    Io(&'a str, io::Error),
    NoMemory(&'a str),
}

impl fmt::Display for Failure<'_> {
    fn fmt<W: fmt::Write>(&self, f: &mut fmt::Formatter<W>) -> fmt::Result {
        match self {
            Failure::Misuse(misuse) => write!(f, "{misuse} (try 'hundzelo --help')"),
            Failure::Check(error) => write!(f, "{error}"),
            Failure::Io(name, error) => write!(f, "{name}: {error}"),
            Failure::NoMemory(name) => write!(f, "{name}: no memory"),
        }
    }
}

impl<'a> From<Misuse<'a>> for Failure<'a> {
    fn from(misuse: Misuse<'a>) -> Failure<'a> {
        Failure::Misuse(misuse)
    }
}

impl<'a> From<CheckError<'a>> for Failure<'a> {
    fn from(error: CheckError<'a>) -> Failure<'a> {
        Failure::Check(error)
    }
}
