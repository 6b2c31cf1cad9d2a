// Why a packet was not read or not written.
ghost use Rattle.packets.specs.Faults.{meaning};

use refusals::Numbered;

#[derive(Clone, Copy, PartialEq, Eq, Debug)]
pub enum HeaderFault {
    // The bytes are not as many as a packet has; how many they are.
    Length(usize),
    // A block number that 12 bits do not hold.
    Block(u32),
    // A packet number that 20 bits do not hold.
    Number(u32),
}

impl Numbered for HeaderFault {
    ghost meaning = { meaning };

    fn number(&self) -> u8 {
        match self {
            HeaderFault::Length(_) => 1,
            HeaderFault::Block(_) => 2,
            HeaderFault::Number(_) => 9,
        }
    }

    fn value(&self) -> u64 {
        match *self {
            HeaderFault::Length(n) => n as u64,
            HeaderFault::Block(x) | HeaderFault::Number(x) => u64::from(x),
        }
    }
}
