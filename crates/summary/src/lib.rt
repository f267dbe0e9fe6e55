// What the answers to a log come to.
#![tactic(auto)]

ghost use Rattle.std.specs.Prelude.{◌≡◌, is_some, Some};
ghost use Rattle.summary.specs.Counted.{none_yet, counted, summary_text};

use std::fmt;
use wire::Answer;

#[derive(Clone, Copy, Debug, PartialEq, Eq)]
pub struct Summary {
    pub events: u64,
    // With those that told how many epochs are certified.
    pub right: u64,
    pub refused: u64,
    // The first event that was wrong, counted from 1.
    pub wrong: Option<u64>,
    // How many epochs are certified.
    pub certified: u64,
}

impl Summary {
    pub fn new() -> Summary
        ensures { result ≡ none_yet }
    {
        Summary {
            events: 0,
            right: 0,
            refused: 0,
            wrong: None,
            certified: 0,
        }
    }

    // Counts the answer to the next event.
    pub fn count(&mut self, answer: Answer)
        ensures { self.new ≡ counted self.old answer }
    {
        self.events = self.events.saturating_add(1);
        match answer {
            Answer::Refused(_, _) => self.refused = self.refused.saturating_add(1),
            Answer::Right => self.right = self.right.saturating_add(1),
            Answer::Certified(epochs) => {
                self.right = self.right.saturating_add(1);
                self.certified = epochs;
            }
            Answer::Wrong => self.wrong = self.wrong.or(Some(self.events)),
        }
    }

    pub fn is_wrong(&self) -> bool
        ensures { result ≡ is_some self.now.wrong }
    {
        self.wrong.is_some()
    }
}

impl fmt::Display for Summary {
    ghost output = { λ s. Some (summary_text s) };

    fn fmt<W: fmt::Write>(&self, f: &mut fmt::Formatter<W>) -> fmt::Result {
        let Summary {
            events,
            right,
            refused,
            wrong,
            certified,
        } = *self;
        match wrong {
            None => write!(
                f,
                "{events} events: {right} right, {refused} refused, not wrong, {certified} epochs certified"
            ),
            Some(wrong) => write!(
                f,
                "{events} events: {right} right, {refused} refused, wrong at event {wrong}, {certified} epochs certified"
            ),
        }
    }
}

#[cfg(test)]
mod tests {
    use super::*;

    #[test]
    fn answers_are_counted(rt: HostRuntime) {
        let mut summary = Summary::new();
        summary.count(Answer::Right);
        summary.count(Answer::Refused(1, 3));
        summary.count(Answer::Certified(2));
        assert!(rt; !summary.is_wrong());
        summary.count(Answer::Wrong);
        summary.count(Answer::Wrong);
        assert!(rt; summary.is_wrong());
        let (events, right, refused, certified) = (5, 2, 1, 2);
        let wrong = Some(4);
        assert_eq!(rt;
            summary,
            Summary {
                events,
                right,
                refused,
                wrong,
                certified,
            }
        );
    }
}
