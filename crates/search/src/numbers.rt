// The number and the first value of each refusal.
ghost use Rattle.search.specs.Answers.{meaning};

use crate::answer::Unfound;
use refusals::Numbered;

impl Numbered for Unfound {
    ghost meaning = { meaning };

    fn number(&self) -> u8 {
        match self {
            Unfound::OtherWidth(_) => 5,
            Unfound::ShortMemory(_) => 12,
            Unfound::NoCodeword(_) => 13,
            Unfound::Several(_, _) => 14,
        }
    }

    fn value(&self) -> u64 {
        match *self {
            Unfound::OtherWidth(n) | Unfound::ShortMemory(n) => n as u64,
            Unfound::NoCodeword(report) | Unfound::Several(report, _) => u64::from(report.pivots),
        }
    }
}
