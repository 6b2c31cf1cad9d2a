// Why a call on a block is refused, and why a solve gave no permit.
ghost use Rattle.std.specs.Prelude.{◌≡◌};
ghost use Rattle.receiver.specs.Refusals.{meaning};
ghost use Rattle.receiver.specs.Solves.{as_unsolved};

use refusals::Numbered;
use search::{Report, Unfound};

// A refresh time in seconds, from the host. 0 is no stamp.
pub type Stamp = u32;

#[derive(Clone, Copy, PartialEq, Eq, Debug)]
pub enum Fault {
    BlockNumber(u32),
    NoStamp,
    TableLength(usize),
    OtherWidth(usize),
    PermitOut(Stamp),
    OtherBlock(u32),
    OtherStamp(Stamp),
    NoPlace(u32),
    Received(u32),
    NotLater(Stamp),
    ShortMemory(usize),
    NotItsPermit(Stamp),
}

// Why a solve gave no permit: it was refused before its search, or its search found no codeword or several.
#[derive(Clone, Copy, PartialEq, Eq, Debug)]
pub enum Unsolved {
    Refused(Fault),
    NoCodeword(Report),
    Several(Report, u32),
}

impl Numbered for Fault {
    ghost meaning = { meaning };

    fn number(&self) -> u8 {
        match self {
            Fault::BlockNumber(_) => 2,
            Fault::NoStamp => 3,
            Fault::TableLength(_) => 4,
            Fault::OtherWidth(_) => 5,
            Fault::PermitOut(_) => 6,
            Fault::OtherBlock(_) => 7,
            Fault::OtherStamp(_) => 8,
            Fault::NoPlace(_) => 9,
            Fault::Received(_) => 10,
            Fault::NotLater(_) => 11,
            Fault::ShortMemory(_) => 12,
            Fault::NotItsPermit(_) => 15,
        }
    }

    fn value(&self) -> u64 {
        match *self {
            Fault::NoStamp => 0,
            Fault::BlockNumber(b) | Fault::OtherBlock(b) => u64::from(b),
            Fault::TableLength(n) | Fault::OtherWidth(n) | Fault::ShortMemory(n) => n as u64,
            Fault::NoPlace(p) | Fault::Received(p) => u64::from(p),
            Fault::PermitOut(s)
            | Fault::OtherStamp(s)
            | Fault::NotLater(s)
            | Fault::NotItsPermit(s) => u64::from(s),
        }
    }
}

// Why a search gave no codeword, as a solve tells it.
impl From<Unfound> for Unsolved {
    ghost from_gives = { λ e r. r ≡ as_unsolved e };

    fn from(e: Unfound) -> Unsolved {
        match e {
            Unfound::OtherWidth(n) => Unsolved::Refused(Fault::OtherWidth(n)),
            Unfound::ShortMemory(m) => Unsolved::Refused(Fault::ShortMemory(m)),
            Unfound::NoCodeword(report) => Unsolved::NoCodeword(report),
            Unfound::Several(report, shortfall) => Unsolved::Several(report, shortfall),
        }
    }
}
