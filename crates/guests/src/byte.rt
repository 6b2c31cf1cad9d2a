// A symbol of one's own: a byte under exclusive or.
ghost use Rattle.guests.specs.ByteLaws.{byte_laws};
ghost use Rattle.guests.specs.Bytes.{byte_kind};

use symbols::Symbol;

#[derive(Clone, Copy, PartialEq, Eq, Debug)]
pub struct Byte {
    pub value: u8,
}

impl Symbol for Byte {
    ghost kind = { byte_kind };

    ghost lawful = { byte_laws };

    fn zero() -> Byte {
        Byte { value: 0 }
    }

    fn unit() -> Byte {
        Byte { value: 1 }
    }

    fn add(&mut self, other: &Byte) {
        self.value ^= other.value;
    }

    fn is_zero(&self) -> bool {
        self.value == 0
    }
}
