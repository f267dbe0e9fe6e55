// Checks the log that a store's keeper writes: `hundzelo check LOG`.
#![tactic(auto)]

mod failure;
mod rules;

use checking::check_log;
use failure::Failure;
use options::{CheckOptions, Command, parse};
use rules::Rules;
use std::env;
use std::io::BufWriter;
use std::process::ExitCode;

const VERSION: &str = "hundzelo 0.1.0";

const HELP: &str = "\
Usage: hundzelo check [OPTIONS] LOG

Checks the events of a log file and prints one answer a line:
refused N PLACE, wrong, right or certified N. LOG may be - for standard input.

Options:
  --key FILE   take the secret key of the sums, 32 bytes, from FILE
               (otherwise it is drawn afresh from /dev/urandom)
  --quiet      print no answers, only the summary
  --progress   say every 1,000,000 events how far the log is read
  --no-fail    end with status 0 even if the log was wrong
  --           what follows is no option
  -h, --help   print this help; hundzelo --version prints the version

The summary goes to standard error. The status is 0, or 1 if the log was wrong
or could not be checked.";

fn arguments(rt: &HostRuntime) -> Result<Vec<String>, Failure<'static>> {
    env::args(rt)
        .map_err(|e| Failure::Io("the arguments", e))?
        .collect::<Vec<String>>(rt.alloc())
        .map_err(|_| Failure::NoMemory("the arguments"))
}

fn run<'a>(rt: &HostRuntime, args: &'a [String]) -> Result<ExitCode, Failure<'a>> {
    let words = args
        .iter()
        .skip(1)
        .map(|arg| arg.as_str())
        .collect::<Vec<&str>>(rt.alloc())
        .map_err(|_| Failure::NoMemory("the arguments"))?;
    match parse(words.as_slice())? {
        Command::Help => print(rt, HELP),
        Command::Version => print(rt, VERSION),
        Command::Check(options) => Ok(check(rt, options)),
    }
}

// The writer outlives a failure: answers that are still in it are written after what is said of that.
fn check(rt: &HostRuntime, options: CheckOptions<'_>) -> ExitCode {
    let mut out = None;
    let opener = || BufWriter::new(rt.alloc(), rt.stdout());
    match check_log::<Rules, _, _>(rt, options, opener, &mut out) {
        Ok(summary) if summary.is_wrong() && !options.no_fail => ExitCode::FAILURE,
        Ok(_) => ExitCode::SUCCESS,
        Err(error) => told(rt, error.into()),
    }
}

fn print<'a>(rt: &HostRuntime, text: &str) -> Result<ExitCode, Failure<'a>> {
    rt.println(text)
        .map_err(|e| Failure::Io("standard output", e))?;
    Ok(ExitCode::SUCCESS)
}

// Says in one line what went wrong. Where standard error is closed, the status still tells.
fn told(rt: &HostRuntime, failure: Failure<'_>) -> ExitCode {
    let _ = eprintln!(rt; "hundzelo: {failure}");
    ExitCode::FAILURE
}

fn main(rt: HostRuntime) -> ExitCode {
    let args = match arguments(&rt) {
        Ok(args) => args,
        Err(failure) => return told(&rt, failure),
    };
    run(&rt, args.as_slice()).unwrap_or_else(|failure| told(&rt, failure))
}
