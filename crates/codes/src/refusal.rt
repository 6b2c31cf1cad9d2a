// Why a code is not made.
ghost use Rattle.codes.specs.Refusals.{meaning};

use refusals::Numbered;

#[derive(Clone, Copy, PartialEq, Eq, Debug)]
pub enum Refusal {
    // Sizes outside the rules or bounds, too many ones, or a layer that does not fit.
    BadShape,
    // A record or a base entry that breaks its rule: the place of the first, counted from 0.
    BadEntry(usize),
}

impl Numbered for Refusal {
    ghost meaning = { meaning };

    fn number(&self) -> u8 {
        match self {
            Refusal::BadShape => 17,
            Refusal::BadEntry(_) => 16,
        }
    }

    fn value(&self) -> u64 {
        match *self {
            Refusal::BadShape => 0,
            Refusal::BadEntry(place) => place as u64,
        }
    }
}
