// The pair of two symbols as a symbol: summed part by part.
ghost use Rattle.symbols.specs.Pairs.{pair_kind};
ghost use Rattle.symbols.specs.PairLaws.{pair_laws};

use crate::kinds::Pair;
use crate::symbol::Symbol;

impl<A: Symbol, B: Symbol> Symbol for Pair<A, B> {
    ghost kind = { pair_kind A.Symbol.kind B.Symbol.kind };

    ghost lawful = { pair_laws A.Symbol.kind B.Symbol.kind A.Symbol.lawful B.Symbol.lawful };

    fn zero() -> Pair<A, B> {
        Pair {
            first: A::zero(),
            second: B::zero(),
        }
    }

    fn unit() -> Pair<A, B> {
        Pair {
            first: A::unit(),
            second: B::zero(),
        }
    }

    fn add(&mut self, other: &Pair<A, B>) {
        self.first.add(&other.first);
        self.second.add(&other.second);
    }

    fn is_zero(&self) -> bool {
        self.first.is_zero() && self.second.is_zero()
    }
}
