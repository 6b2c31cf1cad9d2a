// One call of a day on a block, and how its answer is entered in the log.
use receiver::{Fault, Stamp, Unsolved};
use search::Report;

#[derive(Clone, Copy, PartialEq, Eq, Debug)]
pub enum Order<S> {
    Receive {
        number: u32,
        stamp: Stamp,
        place: u32,
        symbol: S,
    },
    Solve,
    Show {
        place: u32,
    },
    Close,
    Renew {
        stamp: Stamp,
    },
}

#[derive(Clone, Copy, PartialEq, Eq, Debug)]
pub enum Entry<S> {
    Received(Result<(), Fault>),
    Solved(Result<Report, Unsolved>),
    Shown(Result<S, Fault>),
    Closed,
    Renewed(Result<(), Fault>),
    // No permit was in hand to show or to close under.
    NoPermit,
}
