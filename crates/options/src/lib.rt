// What the program's arguments ask for.
#![tactic(auto)]

ghost use Rattle.options.specs.Flags.{Spells};

use std::fmt;

// How a log is to be checked.
#[derive(Clone, Copy, Debug, PartialEq)]
pub struct CheckOptions<'a> {
    pub log: &'a str,
    pub key: Option<&'a str>,
    pub quiet: bool,
    pub progress: bool,
    pub no_fail: bool,
}

#[derive(Clone, Copy, Debug, PartialEq)]
pub enum Command<'a> {
    Help,
    Version,
    Check(CheckOptions<'a>),
}

// What is wrong with the arguments.
#[derive(Clone, Copy, Debug, PartialEq)]
pub enum Misuse<'a> {
    NoCommand,
    UnknownCommand(&'a str),
    UnknownOption(&'a str),
    NoKeyFile,
    NoLog,
    SecondLog(&'a str),
}

impl fmt::Display for Misuse<'_> {
    fn fmt<W: fmt::Write>(&self, f: &mut fmt::Formatter<W>) -> fmt::Result {
        match *self {
            Misuse::NoCommand => f.write_str("a command is missing"),
            Misuse::UnknownCommand(word) => write!(f, "there is no command '{word}'"),
            Misuse::UnknownOption(word) => write!(f, "there is no option '{word}'"),
            Misuse::NoKeyFile => f.write_str("after --key a file is missing"),
            Misuse::NoLog => f.write_str("the log file is missing"),
            Misuse::SecondLog(word) => write!(f, "only one log can be checked, not also '{word}'"),
        }
    }
}

// The words are the arguments after the program's own name.
pub fn parse<'a>(words: &[&'a str]) -> Result<Command<'a>, Misuse<'a>> {
    let [command, rest @ ..] = words else {
        return Err(Misuse::NoCommand);
    };
    match *command {
        "--help" | "-h" | "help" => Ok(Command::Help),
        "--version" => Ok(Command::Version),
        "check" => parse_check(rest),
        other => Err(Misuse::UnknownCommand(other)),
    }
}

fn parse_check<'a>(words: &[&'a str]) -> Result<Command<'a>, Misuse<'a>> {
    let mut so_far = SoFar::default();
    for word in words {
        so_far.take(*word)?;
    }
    if so_far.help {
        return Ok(Command::Help);
    }
    if so_far.expected == Expected::KeyFile {
        return Err(Misuse::NoKeyFile);
    }
    Ok(Command::Check(CheckOptions {
        log: so_far.log.ok_or(Misuse::NoLog)?,
        key: so_far.key,
        quiet: so_far.quiet,
        progress: so_far.progress,
        no_fail: so_far.no_fail,
    }))
}

// What the next word may be.
#[derive(Clone, Copy, Default, PartialEq, Eq)]
enum Expected {
    #[default]
    Anything,
    KeyFile,
    NoOption,
}

// What the words up to now ask for.
#[derive(Clone, Copy, Default)]
struct SoFar<'a> {
    log: Option<&'a str>,
    key: Option<&'a str>,
    quiet: bool,
    progress: bool,
    no_fail: bool,
    help: bool,
    expected: Expected,
}

impl<'a> SoFar<'a> {
    fn take(&mut self, word: &'a str) -> Result<(), Misuse<'a>> {
        match self.expected {
            Expected::KeyFile => {
                self.key = Some(word);
                self.expected = Expected::Anything;
            }
            Expected::NoOption => self.take_log(word)?,
            Expected::Anything => match flag_of(word) {
                Flag::Plain => self.take_log(word)?,
                Flag::End => self.expected = Expected::NoOption,
                Flag::Key => self.expected = Expected::KeyFile,
                Flag::Quiet => self.quiet = true,
                Flag::Progress => self.progress = true,
                Flag::NoFail => self.no_fail = true,
                Flag::Help => self.help = true,
                Flag::Other => {
                    let file = word.strip_prefix("--key=");
                    self.key = Some(file.ok_or(Misuse::UnknownOption(word))?);
                }
            },
        }
        Ok(())
    }

    fn take_log(&mut self, word: &'a str) -> Result<(), Misuse<'a>> {
        if self.log.is_some() {
            return Err(Misuse::SecondLog(word));
        }
        self.log = Some(word);
        Ok(())
    }
}

// What a word is on its own. `Plain` and `Other` stand among the flags, for then every word is one case of what `flag_of` promises.
#[derive(Clone, Copy)]
enum Flag {
    Plain,
    End,
    Key,
    Quiet,
    Progress,
    NoFail,
    Help,
    // It begins as an option does.
    Other,
}

fn flag_of(word: &str) -> Flag
    ensures { Spells word.now result }
{
    match word {
        "--" => Flag::End,
        "--key" => Flag::Key,
        "--quiet" => Flag::Quiet,
        "--progress" => Flag::Progress,
        "--no-fail" => Flag::NoFail,
        "--help" | "-h" => Flag::Help,
        // A lone - is standard input.
        "-" => Flag::Plain,
        _ if word.starts_with('-') => Flag::Other,
        _ => Flag::Plain,
    }
}

#[cfg(test)]
mod tests {
    use super::*;

    fn asked<'a>(
        log: &'a str,
        key: Option<&'a str>,
        quiet: bool,
    ) -> Result<Command<'a>, Misuse<'a>> {
        Ok(Command::Check(CheckOptions {
            log,
            key,
            quiet,
            progress: false,
            no_fail: false,
        }))
    }

    #[test]
    fn commands_are_told(rt: HostRuntime) {
        assert_eq!(rt; parse(&["--help"]), Ok(Command::Help));
        assert_eq!(rt; parse(&["help"]), Ok(Command::Help));
        assert_eq!(rt; parse(&["--version"]), Ok(Command::Version));
        assert_eq!(rt; parse(&["check", "a.log", "-h"]), Ok(Command::Help));
        assert_eq!(rt; parse(&["check", "a.log"]), asked("a.log", None, false));
        assert_eq!(rt; parse(&["check", "--quiet", "-"]), asked("-", None, true));
        assert_eq!(rt;
            parse(&["check", "-", "--quiet", "--key", "--quiet"]),
            asked("-", Some("--quiet"), true)
        );
        assert_eq!(rt;
            parse(&["check", "--key=k", "--", "--quiet"]),
            asked("--quiet", Some("k"), false)
        );
    }

    #[test]
    fn misuse_is_told(rt: HostRuntime) {
        assert_eq!(rt; parse(&[]), Err(Misuse::NoCommand));
        assert_eq!(rt; parse(&["chek"]), Err(Misuse::UnknownCommand("chek")));
        assert_eq!(rt; parse(&["check"]), Err(Misuse::NoLog));
        assert_eq!(rt; parse(&["check", "a", "b"]), Err(Misuse::SecondLog("b")));
        assert_eq!(rt; parse(&["check", "a", "--key"]), Err(Misuse::NoKeyFile));
        assert_eq!(rt;
            parse(&["check", "-q", "a"]),
            Err(Misuse::UnknownOption("-q"))
        );
        assert_eq!(rt;
            parse(&["check", "--keys", "a"]),
            Err(Misuse::UnknownOption("--keys"))
        );
    }
}
