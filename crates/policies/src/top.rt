// The active column of greatest weight, of weights in an array.
ghost use Rattle.std.specs.Prelude.{◌≡◌, ◌+◌, ◌<◌, slice_set};
ghost use Rattle.method.specs.Choices.{top};
ghost use Rattle.policies.specs.Numbers.{at};
ghost use Rattle.policies.specs.Shown.{shown};

use crate::columns::Columns;
use codes::MAX_COLUMNS;

// A number for each column.
pub(crate) type Numbers = [u16; MAX_COLUMNS];

// One more at place c.
pub(crate) fn raise(counts: &mut Numbers, c: usize)
    requires column { c < 512 }
    requires room { at counts.old c < 65535 }
    ensures { counts.new ≡ slice_set counts.old c (at counts.old c + 1) }
{
    counts[c] += 1;
}

// The active column of greatest weight, the lowest on a tie. The fold itself asks whether a column is active: behind a `filter`
// the pass takes longer where most are.
pub(crate) fn top(weights: &Numbers, active: &Columns) -> Option<usize>
    ensures { result ≡ top (at weights.now) (shown active.now) }
{
    (0..active.width).fold(None, |best, c| {
        if !active.has(c) || best.is_some_and(|b| weights[b] >= weights[c]) {
            best
        } else {
            Some(c)
        }
    })
}
