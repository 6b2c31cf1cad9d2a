// The rows in working memory: one added to others.
ghost use Rattle.std.specs.Prelude.{◌≡◌, ◌*◌, ◌<◌, ◌≤◌, length, slice_index_or, slice_set};
ghost use Rattle.bits.specs.Sets.{xors, row, put_row};
ghost use Rattle.method.specs.Sets.{count};
ghost use Rattle.policies.specs.Shown.{shown};
ghost use Rattle.search.specs.Rows.{Added};

use policies::Columns;
use symbols::Symbol;

// Adds a set and a symbol to row q. No method: one would have to say that all else of an elimination stays.
fn add_line<S: Symbol>(words: &mut [u64], sides: &mut [S], q: usize, line: &bits::Set, side: &S)
    requires { q < length sides.old }
    ensures words { words.new ≡ put_row words.old q (xors (row words.old q) line.now) }
    ensures sides { (d : S) → sides.new ≡ slice_set sides.old q (S.Symbol.kind.sum (slice_index_or sides.old q d) side.now) }
{
    bits::add_line(words, q, line);
    sides[q].add(side);
}

// Adds row r to each row of a set that it is not in, and tells how many they are.
pub(crate) fn add_to_each<S: Symbol>(
    words: &mut [u64],
    sides: &mut [S],
    r: usize,
    others: &Columns,
) -> u32
    requires within { 8 * length sides.old ≤ length words.old }
    requires row { r < length sides.old }
    requires width { others.now.width ≡ length sides.old }
    ensures added { Added S.Symbol.kind.sum (shown others.now) r words.old words.new sides.old sides.new }
    ensures counted { result ≡ count (shown others.now) }
{
    let line = bits::line_at(words, r);
    let side = sides[r];
    // Counted as they are added, so that the set is walked once.
    let mut count = 0;
    for q in others {
        add_line(words, sides, q, &line, &side);
        count += 1;
    }
    count
}
