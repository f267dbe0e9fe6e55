// Checks a whole log: its first line, then its events one by one.
ghost use Rattle.std.specs.Prelude.{◌≡◌, true, false, Ok, IfOk, IfErr, IsSomeAnd};
ghost use Rattle.checking.specs.Checked.{is_io, Checks, ChecksOpened, GivesNext};

use crate::error::CheckError;
use crate::input::Input;
use crate::key::sum_key;
use crate::monitor::{Monitor, OpenError};
use logfile::{Frame, LENGTH_BYTES, Limits, cut_at, frame_at, read_limits};
use options::CheckOptions;
use std::io::{Read, Write};
use std::{fs, io};
use summary::Summary;
use wire::Answer;

const STANDARD_INPUT: &str = "standard input";

const STANDARD_OUTPUT: &str = "standard output";

const STANDARD_ERROR: &str = "standard error";

const PROGRESS_EVENTS: u64 = 1_000_000;

// No first line is longer.
const FIRST_LINE_BYTES: usize = 64;

// Writes the answers of a monitor to a log, as the options ask for, and says what they come to. The writer is opened once the log is
// open, the key is there, and the limits of the first line are read and have memory: what is wrong with these is said first, and `out`
// is as it was. Else it stays in `out`, and so outlives what is said of a failure.
pub fn check_log<'a, M: Monitor, W: Write + Drop, F: FnOnce() -> io::Result<W> + Drop>(
    rt: &HostRuntime,
    options: CheckOptions<'a>,
    opener: F,
    out: &mut Option<W>,
) -> Result<Summary, CheckError<'a>>
    requires { F.pre opener }
    ensures unopened { IfErr result (λ e. is_io e ≡ false → out.new ≡ out.old) }
    ensures checks { IfOk result (λ s. (w : W) × (F.post opener (Ok w) × IsSomeAnd out.new (λ v. ChecksOpened M.answers M.answers_cut M.opened options.entry.quiet (W.contents w) s (W.contents v)))) }
{
    if options.log == "-" {
        return check_source::<M, _, _, _>(rt, options, STANDARD_INPUT, rt.stdin(), opener, out);
    }
    let file = fs::open(rt, options.log).map_err(|e| CheckError::Io(options.log, e))?;
    check_source::<M, _, _, _>(rt, options, options.log, file, opener, out)
}

fn check_source<
    'a,
    M: Monitor,
    R: Read + Drop,
    W: Write + Drop,
    F: FnOnce() -> io::Result<W> + Drop,
>(
    rt: &HostRuntime,
    options: CheckOptions<'a>,
    name: &'a str,
    source: R,
    opener: F,
    out: &mut Option<W>,
) -> Result<Summary, CheckError<'a>>
    requires { F.pre opener }
    ensures unopened { IfErr result (λ e. is_io e ≡ false → out.new ≡ out.old) }
    ensures checks { IfOk result (λ s. (w : W) × (F.post opener (Ok w) × IsSomeAnd out.new (λ v. ChecksOpened M.answers M.answers_cut M.opened options.entry.quiet (W.contents w) s (W.contents v)))) }
{
    let key = sum_key(rt, options.key)?;
    let mut input = Input::new(rt.alloc(), name, source)?;
    let limits = first_line(&mut input)?;
    let mut monitor = M::open(rt.alloc(), limits, key.bytes()).map_err(|e| match e {
        OpenError::NoMemory => CheckError::NoMemoryForLimits(name),
        OpenError::OutOfRange => CheckError::LimitsOutOfRange(name),
    })?;
    let out = out.insert(opener().map_err(|e| CheckError::Io(STANDARD_OUTPUT, e))?);
    let summary = check_events(rt, options, &mut input, &mut monitor, out)?;
    rt.eprintln(summary)
        .map_err(|e| CheckError::Io(STANDARD_ERROR, e))?;
    Ok(summary)
}

// Takes the first line, and reads the limits in it.
fn first_line<'a, R: Read + Drop>(input: &mut Input<'a, R>) -> Result<Limits, CheckError<'a>> {
    input.fill(FIRST_LINE_BYTES)?;
    let held = input.held();
    let held = &held[..held.len().min(FIRST_LINE_BYTES)];
    let line = held
        .split_inclusive(|byte| *byte == b'\n')
        .next()
        .unwrap_or(held);
    let len = line.len();
    let limits = read_limits(line).map_err(|e| CheckError::FirstLine(input.name(), e))?;
    input.consume(len);
    Ok(limits)
}

fn check_events<'a, M: Monitor, R: Read + Drop, W: Write>(
    rt: &HostRuntime,
    options: CheckOptions<'a>,
    input: &mut Input<'a, R>,
    monitor: &mut M,
    out: &mut W,
) -> Result<Summary, CheckError<'a>>
    ensures failed { IfErr result (λ e. is_io e ≡ true) }
    ensures checks { IfOk result (λ s. Checks M.answers M.answers_cut options.entry.quiet monitor.old (W.contents out.old) s monitor.new (W.contents out.new)) }
{
    let unwritten = |e| CheckError::Io(STANDARD_OUTPUT, e);
    let mut summary = Summary::new();
    // Reading on until the input ends has no measure. No log has more events than this.
    for _ in 0..u64::MAX {
        let Some(answer) = next_answer(input, monitor)? else {
            break;
        };
        summary.count(answer);
        if !options.quiet {
            writeln!(out, "{answer}").map_err(unwritten)?;
        }
        if options.progress && summary.events.is_multiple_of(PROGRESS_EVENTS) {
            let events = summary.events;
            eprintln!(rt; "{events} events").map_err(|e| CheckError::Io(STANDARD_ERROR, e))?;
        }
    }
    out.flush().map_err(unwritten)?;
    Ok(summary)
}

// The answer to the next event, or none at the log's end.
fn next_answer<'a, M: Monitor, R: Read + Drop>(
    input: &mut Input<'a, R>,
    monitor: &mut M,
) -> Result<Option<Answer>, CheckError<'a>>
    ensures failed { IfErr result (λ e. is_io e ≡ true) }
    ensures gives { IfOk result (λ r. GivesNext M.answers M.answers_cut monitor.old r monitor.new) }
{
    read_event(input)?;
    let held = input.held();
    match frame_at(held) {
        Ok(Frame { kept, passed }) => {
            let answer = monitor.take(&held[LENGTH_BYTES..LENGTH_BYTES + kept]);
            input.consume(LENGTH_BYTES + kept);
            input.skip(passed)?;
            Ok(Some(answer))
        }
        Err(_) => {
            let cut = cut_at(held);
            let len = held.len();
            input.consume(len);
            let Some(len) = cut else {
                return Ok(None);
            };
            Ok(Some(monitor.take_cut(len)))
        }
    }
}

// Reads until a whole event is held, or the input ends: first it may lack its length, then its bytes. A terminal's end may not be its
// last, so what still lacks bytes then is read for once more.
fn read_event<'a, R: Read + Drop>(input: &mut Input<'a, R>) -> Result<(), CheckError<'a>>
    ensures { IfErr result (λ e. is_io e ≡ true) }
{
    for _ in 0..2 {
        match frame_at(input.held()) {
            Ok(_) => break,
            Err(short) => input.fill(short.wanted)?,
        }
    }
    Ok(())
}
