// The rows kept for each column from loading on: a row that is added while columns are active holds just one of them, so
// that the rows that hold an active column never change.
ghost use Rattle.std.specs.Prelude.{◌≡◌, ℕ, ◌+◌, ◌*◌, ◌<◌, ◌≤◌, true, false, ◌&&◌, map, length, nat_lt};
ghost use Rattle.std.specs.List.{range_with_len};
ghost use Rattle.bits.specs.Sets.{holds, Put};
ghost use Rattle.method.specs.Sets.{has};
ghost use Rattle.policies.specs.Shown.{shown};
ghost use Rattle.search.specs.Rows.{holding, keeps};
ghost use Rattle.search.specs.Steps.{Going};

use crate::elimination::Elimination;
use policies::Columns;
use symbols::Symbol;

// Four words for each column: bit 256c + r where row r is kept for column c.
pub(crate) type Kept = [u64; 2048];

// Keeps row r for column c.
pub(crate) fn keep(kept: &mut Kept, c: usize, r: usize)
    requires column { c < 512 }
    requires row { r < 256 }
    ensures { Put (256 * c + r) kept.old kept.new }
{
    bits::put(kept, 256 * c + r);
}

// The rows kept for column c.
fn rows_kept(kept: &Kept, c: usize) -> bits::Set
    requires { c < 512 }
    ensures { (q : ℕ) → holds result q ≡ (nat_lt q 256 && keeps kept.now c q) }
{
    let at = 4 * c;
    [
        kept[at],
        kept[at + 1],
        kept[at + 2],
        kept[at + 3],
        0,
        0,
        0,
        0,
    ]
}

// The same as a set of the rows below m.
fn kept_for(kept: &Kept, m: usize, c: usize) -> Columns
    requires column { c < 512 }
    requires few { m ≤ 256 }
    requires none { (q : ℕ) → m ≤ q → q < 256 → keeps kept.now c q ≡ false }
    ensures { shown result ≡ map (keeps kept.now c) (range_with_len 0 m) }
{
    Columns {
        words: rows_kept(kept, c),
        width: m,
    }
}

impl<S: Symbol> Elimination<'_, S> {
    // The rows that hold the active column c.
    pub(crate) fn active_holders(&self, c: usize) -> Columns
        requires going { Going S.Symbol.kind self.now }
        requires active { has (shown self.now.active) c ≡ true }
        ensures { shown result ≡ map (holding self.now.words.now c) (range_with_len 0 (length self.now.sides.now)) }
    {
        kept_for(self.kept, self.sides.len(), c)
    }
}
