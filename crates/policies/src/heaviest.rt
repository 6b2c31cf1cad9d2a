// The policy that names the active column of greatest weight, the lowest on a tie.
ghost use Rattle.std.specs.Prelude.{◌≡◌, ℕ, ◌≤◌};
ghost use Rattle.codes.specs.Matrix.{holds};
ghost use Rattle.method.specs.Sets.{bump};
ghost use Rattle.method.specs.Choices.{plain, column_weight, heaviest};
ghost use Rattle.policies.specs.Numbers.{at};
ghost use Rattle.policies.specs.Shown.{shown};
ghost use Rattle.method.proofs.Tops.{top_names};

use crate::columns::Columns;
use crate::policy::Policy;
use crate::top::{Numbers, raise, top};
use codes::{Code, MAX_COLUMNS};

// Counts one more for each column of row r.
fn tally<C: Code>(code: &C, r: usize, counts: &mut Numbers)
    requires { (c : ℕ) → at counts.old c ≤ 256 }
    ensures { (c : ℕ) → at counts.new c ≡ bump (holds (C.Rows.matrix code.now) r c) (at counts.old c) }
{
    for c in code.row(r) {
        raise(counts, c);
    }
}

// How many unused rows hold each column: each row is read once. The set may be wider than the code is high, and no row past its height is asked.
fn weigh<C: Code>(code: &C, unused: &Columns) -> Numbers
    ensures { (c : ℕ) → at result c ≡ column_weight (C.Rows.matrix code.now) (shown unused.now) c }
{
    let mut counts = [0; MAX_COLUMNS];
    for r in 0..code.shape().rows {
        if unused.has(r) {
            tally(code, r, &mut counts);
        }
    }
    counts
}

#[derive(Clone, Copy, PartialEq, Eq, Debug)]
pub struct Heaviest;

impl Policy for Heaviest {
    ghost choice = { λ k. plain (heaviest k) };

    ghost names = { λ k p a u. top_names (column_weight k u) a };

    fn name<C: Code>(&mut self, code: &C, active: &Columns, unused: &Columns) -> Option<usize> {
        top(&weigh(code, unused), active)
    }
}
