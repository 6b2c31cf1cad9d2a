// The bit as a symbol: exclusive or.
ghost use Rattle.symbols.specs.BitLaws.{bit_laws};
ghost use Rattle.symbols.specs.Bits.{bit_kind};

use crate::kinds::Bit;
use crate::symbol::Symbol;

impl Symbol for Bit {
    ghost kind = { bit_kind };

    ghost lawful = { bit_laws };

    fn zero() -> Bit {
        Bit::Zero
    }

    fn unit() -> Bit {
        Bit::One
    }

    fn add(&mut self, other: &Bit) {
        *self = match (*self, *other) {
            (Bit::Zero, x) => x,
            (x, Bit::Zero) => x,
            (Bit::One, Bit::One) => Bit::Zero,
        };
    }

    fn is_zero(&self) -> bool {
        *self == Bit::Zero
    }
}
