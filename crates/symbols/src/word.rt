// The word as a symbol: exclusive or, bit by bit.
ghost use Rattle.symbols.specs.WordLaws.{word_laws};
ghost use Rattle.symbols.specs.Words.{word_kind};

use crate::kinds::Word;
use crate::symbol::Symbol;

impl Symbol for Word {
    ghost kind = { word_kind };

    ghost lawful = { word_laws };

    fn zero() -> Word {
        Word { value: 0 }
    }

    fn unit() -> Word {
        Word { value: 1 }
    }

    fn add(&mut self, other: &Word) {
        self.value ^= other.value;
    }

    fn is_zero(&self) -> bool {
        self.value == 0
    }
}
