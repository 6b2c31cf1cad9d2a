// What a line of a script says, where it is a call.
use piles::{Pile, PolicyName};
use receiver::Stamp;
use session::Which;

// The kinds of symbols that a script can be about.
#[derive(Clone, Copy, PartialEq, Eq, Debug)]
pub(crate) enum SymbolName {
    Bit,
    Word,
    Cell,
    Dated,
}

#[derive(Drop, PartialEq, Eq, Debug)]
pub(crate) enum Said<S> {
    // A call that wants neither a block nor a code.
    Apart(script::Call),
    Symbols(SymbolName),
    Code(Pile),
    Row(u32),
    Policy(PolicyName),
    // The lengths of the working memory that later solves are handed.
    Memory {
        words: u32,
        symbols: u32,
    },
    Use(Which),
    Open {
        number: u32,
        stamp: Stamp,
        places: u32,
    },
    Receive {
        number: u32,
        stamp: Stamp,
        place: u32,
        symbol: S,
    },
    Packet {
        stamp: Stamp,
        bytes: Vec<u8>,
    },
    Run {
        stamp: Stamp,
        bytes: Vec<u8>,
    },
    Solve,
    // Under the permit in the hand of the block that is named; of the block in use, where none is.
    Show {
        place: u32,
        named: Option<Which>,
    },
    Close {
        named: Option<Which>,
    },
    Renew {
        stamp: Stamp,
    },
    Figure,
    Grid,
}
