// Making a quasi-cyclic code: the caller's base entries are judged once, and read from then on.
ghost use Rattle.std.specs.Prelude.{◌≡◌, [], ◌∷◌, negsuc, MatchResult};
ghost use Rattle.codes.specs.Refusals.{told};
ghost use Rattle.quasi_cyclic.specs.Circulants.{circulant_matrix};
ghost use Rattle.quasi_cyclic.specs.Entries.{quasi_cyclic, judged_entries};

use crate::circulant::QuasiCyclic;
use crate::entries::judge;
use codes::{Refusal, Squares};

impl<'a> QuasiCyclic<'a> {
    // The smallest code: one empty square of one row and one column. `make` overwrites it: the rules fix a making over a code that
    // the caller holds.
    pub fn smallest() -> QuasiCyclic<'a>
        ensures { circulant_matrix result ≡ quasi_cyclic 1 1 1 (negsuc 0 ∷ []) }
    {
        QuasiCyclic {
            squares: Squares { a: 1, b: 1, z: 1 },
            entries: &[-1],
            ones: 0,
        }
    }

    // Makes this the code of these squares that the entries give, or refuses and leaves it as it is.
    pub fn make(&mut self, squares: Squares, entries: &'a [i16]) -> Result<(), Refusal>
        ensures answer { told result ≡ judged_entries squares.a squares.b squares.z entries.now }
        ensures code { MatchResult result (λ _. circulant_matrix self.new ≡ quasi_cyclic squares.a squares.b squares.z entries.now) (λ _. self.new ≡ self.old) }
    {
        let ones = judge(squares, entries)?;
        *self = QuasiCyclic {
            squares,
            entries,
            ones,
        };
        Ok(())
    }
}
