// Reading out: whether a row clashes, the row of each column and its symbol, and wiping.
ghost use Rattle.std.specs.Prelude.{◌≡◌, ℕ, ◌<◌, ◌≤◌, List, is_some, None, slice_index_or};
ghost use Rattle.method.specs.Sets.{lowest};
ghost use Rattle.method.specs.Method.{clash};
ghost use Rattle.search.specs.Found.{symbol_at, wiped};
ghost use Rattle.search.specs.Places.{Placed};
ghost use Rattle.search.specs.View.{lines, use_of};

use crate::answer::Report;
use crate::found::Found;
use crate::uses::Uses;
use symbols::Symbol;

// Whether an unused row has a right side that is not zero.
pub(crate) fn clashes<S: Symbol>(sides: &[S], uses: &Uses) -> bool
    ensures { (n : ℕ) (ws : List ℕ) → result ≡ is_some (lowest (clash S.Symbol.kind) (lines S.Symbol.kind n ws sides.now uses.now)) }
{
    sides
        .iter()
        .enumerate()
        .any(|(r, side)| uses.unused.has(r) && !side.is_zero())
}

impl Uses {
    // The column that row r is used for.
    fn column_of(&self, r: usize) -> Option<usize>
        requires { r < 256 }
        ensures { result ≡ use_of self.now r }
    {
        (!self.unused.has(r)).then_some(usize::from(self.columns[r]))
    }
}

// For each column the lowest row below m that is used for it.
pub(crate) fn places(uses: &Uses, m: usize) -> [Option<u8>; 512]
    requires { m ≤ 256 }
    ensures { Placed uses.now 0 m result }
{
    // From the highest row down, so that the lowest stays. By index: of `get_mut` a proof does not know what was written.
    let mut rows = [None; 512];
    for r in (0..m).rev() {
        if let Some(c) = uses.column_of(r) {
            if c < 512 {
                rows[c] = Some(r as u8);
            }
        }
    }
    rows
}

// The right side of row r; zero past the end.
fn side_at<S: Symbol>(sides: &[S], r: usize) -> S
    ensures { result ≡ slice_index_or sides.now r S.Symbol.kind.zero }
{
    sides.get(r).copied().unwrap_or(S::zero())
}

impl Found {
    // What the search counted. (A permit has the same of its own.)
    pub fn report(&self) -> Report
        ensures { result ≡ self.now.report }
    {
        self.report
    }

    // The row used for column c.
    fn row_of(&self, c: usize) -> Option<usize>
        ensures { result ≡ slice_index_or self.now.rows c None }
    {
        self.rows.get(c).copied().flatten().map(usize::from)
    }

    // The symbol of column c in the right sides that the search left; zero where no row is used for it.
    pub fn symbol<S: Symbol>(&self, sides: &[S], c: usize) -> S
        ensures { result ≡ symbol_at S.Symbol.kind self.now sides.now c }
    {
        self.row_of(c).map_or(S::zero(), |r| side_at(sides, r))
    }
}

// Makes the first m right sides zero, or all where there are fewer.
pub fn wipe<S: Symbol>(sides: &mut [S], m: usize)
    ensures { sides.new ≡ wiped S.Symbol.kind.zero m sides.old }
{
    // Not by `fill`, which asks for a clone that cannot fail: of a symbol only a copy is known.
    let zero = S::zero();
    let k = m.min(sides.len());
    for side in &mut sides[..k] {
        *side = zero;
    }
}
