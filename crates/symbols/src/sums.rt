// Sums of symbols over places of a table.
ghost use Rattle.std.specs.Prelude.{◌≡◌, ℕ, List, slice_index_or};
ghost use mathlib.Core.List.{Perm};
ghost use Rattle.symbols.specs.Sums.{sum_at};

use crate::symbol::Symbol;

// The sum of the table's symbols at the columns listed, in whatever order; a column past its end counts as zero.
pub fn sum_at<S: Symbol>(table: &[S], columns: &[u16]) -> S
    ensures value { result ≡ sum_at S.Symbol.kind.zero S.Symbol.kind.sum table.now columns.now }
    ensures order { (cs : List ℕ) → Perm columns.now cs → result ≡ sum_at S.Symbol.kind.zero S.Symbol.kind.sum table.now cs }
{
    let mut sum = S::zero();
    for c in columns {
        add_column(&mut sum, table, usize::from(*c));
    }
    sum
}

// Adds the table's symbol at a column, or nothing past its end.
pub fn add_column<S: Symbol>(sum: &mut S, table: &[S], column: usize)
    ensures { sum.new ≡ S.Symbol.kind.sum sum.old (slice_index_or table.now column S.Symbol.kind.zero) }
{
    if let Some(x) = table.get(column) {
        sum.add(x);
    }
}
