// One call of a session on a block, and how its answer is entered in the log.
use piles::PolicyName;
use receiver::{Fault, Layer, Stamp, Stopped, Unsolved};
use search::Report;

// Whose permit a call is made under: the one in the block's own hand, or the one in the other block's.
#[derive(Clone, Copy, PartialEq, Eq, Debug)]
pub enum Hand {
    Own,
    Other,
}

#[derive(Drop, PartialEq, Eq, Debug)]
pub enum Order<S> {
    Open {
        number: u32,
        stamp: Stamp,
        places: usize,
    },
    Receive {
        number: u32,
        stamp: Stamp,
        place: u32,
        symbol: S,
    },
    Packet {
        stamp: Stamp,
        bytes: Vec<u8>,
    },
    Run {
        stamp: Stamp,
        bytes: Vec<u8>,
    },
    // With one of the session's codes, by its place, and so much of its working memory.
    Solve {
        code: Option<usize>,
        policy: PolicyName,
        words: usize,
        symbols: usize,
    },
    Show {
        place: u32,
        hand: Hand,
    },
    Close {
        hand: Hand,
    },
    Renew {
        stamp: Stamp,
    },
    Figure,
    // Whether a place was received.
    Mark {
        place: u32,
    },
}

#[derive(Clone, Copy, PartialEq, Eq, Debug)]
pub enum Entry<S> {
    Opened(Result<(), Fault>),
    Received(Result<(), Fault>),
    Packed(Result<(), Layer>),
    Ran(Result<usize, Stopped>),
    Solved(Result<Report, Unsolved>),
    Shown(Result<S, Fault>),
    Closed(Result<(), Fault>),
    Renewed(Result<(), Fault>),
    Figured(u64),
    Marked(Option<bool>),
    // No block was ever opened there.
    NoBlock,
    // A permit is in the block's hand, so none is opened.
    PermitInHand,
    // No permit is in the hand to show or to close under.
    NoPermit,
    // The other block's permit has the numbers of this block's: it is not handed to close.
    OtherBlocks,
    NotCells,
    NoCode,
    // The session has less memory than the call asks for.
    NoMemory,
}

// Which of the two blocks of a session a call goes to.
#[derive(Clone, Copy, PartialEq, Eq, Debug)]
pub enum Which {
    First,
    Second,
}

#[derive(Drop, PartialEq, Eq, Debug)]
pub struct Call<S> {
    pub block: Which,
    pub order: Order<S>,
}
