// Checks a log file by all verifiers, over memory of its own.
#![tactic(auto)]

ghost use Rattle.std.specs.Prelude.{◌≡◌, false, Ok, IfOk, IfErr, IsSomeAnd};
ghost use Rattle.checking.specs.Checked.{is_io, ChecksOpened};
ghost use Rattle.watch.specs.Whole.{Takes};
ghost use Rattle.watching.specs.Watching.{Opens, TakesCut};

use checking::{CheckError, Monitor, OpenError};
use logfile::Limits;
use options::CheckOptions;
use std::alloc::Global;
use std::io;
use std::io::Write;
use summary::Summary;
use watch::{open, take, take_cut, words_needed};
use wire::Answer;

// The words that a monitor is kept in.
#[derive(Drop)]
pub struct Watched {
    memory: Vec<u64>,
}

impl Monitor for Watched {
    ghost opened = { λ limits key m. Opens limits key m.memory.items };

    ghost answers = { λ old event r new. Takes old.memory.items event new.memory.items r };

    ghost answers_cut = { λ old len r new. TakesCut old.memory.items len new.memory.items r };

    fn open(alloc: Global, limits: Limits, key: &[u8; 32]) -> Result<Watched, OpenError> {
        // by hand: neither crate knows the other's limits, and From for two foreign types is refused
        let limits = watch::Limits {
            verifiers: usize::from(limits.verifiers),
            places: usize::from(limits.places),
            epochs: usize::from(limits.epochs),
        };
        let words = words_needed(limits).ok_or(OpenError::OutOfRange)?;
        let mut memory = vec![in alloc; 0u64; words]?;
        if !open(memory.as_mut_slice(), limits, key) {
            return Err(OpenError::OutOfRange);
        }
        Ok(Watched { memory })
    }

    fn take(&mut self, event: &[u8]) -> Answer {
        take(self.memory.as_mut_slice(), event)
    }

    fn take_cut(&mut self, len: usize) -> Answer {
        take_cut(len)
    }
}

// Writes the answers to a log, as the options ask for, and says what they come to: what `watch` answered, one event after the other, over
// words that it had opened.
pub fn check_log<'a, W: Write + Drop, F: FnOnce() -> io::Result<W> + Drop>(
    rt: &HostRuntime,
    options: CheckOptions<'a>,
    opener: F,
    out: &mut Option<W>,
) -> Result<Summary, CheckError<'a>>
    requires { F.pre opener }
    ensures unopened { IfErr result (λ e. is_io e ≡ false → out.new ≡ out.old) }
    ensures checks { IfOk result (λ s. (w : W) × (F.post opener (Ok w) × IsSomeAnd out.new (λ v. ChecksOpened ⟦<Watched as Monitor>⟧.answers ⟦<Watched as Monitor>⟧.answers_cut ⟦<Watched as Monitor>⟧.opened options.entry.quiet (W.contents w) s (W.contents v)))) }
{
    checking::check_log::<Watched, _, _>(rt, options, opener, out)
}

#[cfg(test)]
mod tests {
    use super::{Watched, check_log};
    use checking::{CheckError, Monitor};
    use logfile::Limits;
    use options::CheckOptions;
    use std::io::Write;
    use std::test::Fail;
    use summary::Summary;
    use wire::Answer;

    // A writer that is there is lent by a closure that has it.
    fn lent<'a, W: Write>(
        rt: &HostRuntime,
        options: CheckOptions<'a>,
        out: &mut W,
    ) -> Result<Summary, CheckError<'a>> {
        check_log(rt, options, move || Ok(out), &mut None)
    }

    #[test]
    fn tells_that_no_log_is_there(rt: HostRuntime) {
        let options = CheckOptions {
            log: "no such log",
            key: None,
            quiet: false,
            progress: false,
            no_fail: false,
        };
        let mut out = Vec::new(rt.alloc());
        assert!(rt;
            matches!(
                lent(&rt, options, &mut out),
                Err(CheckError::Io("no such log", _))
            )
        );
        assert_eq!(rt; out.len(), 0);
    }

    // A monitor has memory for small limits, and answers its verifier's first entry: that its epoch is done.
    #[test]
    fn opens(rt: HostRuntime) -> Result<(), Fail> {
        let limits = Limits {
            verifiers: 1,
            places: 2,
            epochs: 2,
        };
        let Ok(mut monitor) = Watched::open(rt.alloc(), limits, &[7; 32]) else {
            return Err(Fail::new("there is memory for these limits"));
        };
        assert_eq!(rt; monitor.take(&[0, 0, 0, 0, 0, 0, 0, 0, 5]), Answer::Right);
        assert_eq!(rt; monitor.take_cut(3), Answer::Refused(1, 3));
        Ok(())
    }
}
