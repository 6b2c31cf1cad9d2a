// Loading: each row's missing columns and the sum of its received symbols, and what is kept beside the rows.
ghost use Rattle.std.specs.Prelude.{◌≡◌, ℕ, ◌*◌, ◌<◌, ◌≤◌, false, length, replicate, take};
ghost use Rattle.codes.specs.Matrix.{height};
ghost use Rattle.method.specs.Method.{missing, start};
ghost use Rattle.policies.specs.Shown.{shown};
ghost use Rattle.search.specs.Loads.{Read, Loaded, singles, Begun};
ghost use Rattle.search.specs.Rows.{keeps, Noted, KeptBelow};
ghost use Rattle.search.specs.Searches.{marks_in};
ghost use Rattle.search.specs.Steps.{Going};
ghost use Rattle.search.specs.View.{bare};

use crate::elimination::Elimination;
use crate::heard::Heard;
use crate::kept::{Kept, keep};
use crate::passing::passing;
use crate::tally::Tally;
use crate::uses::Uses;
use arrayvec::ArrayVec;
use codes::{Code, Rows};
use policies::Columns;
use symbols::{Symbol, add_column};

// The rows below m with a count of one.
fn lone_rows(m: usize, counts: &[u16; 256]) -> Columns
    requires { m ≤ 256 }
    ensures { shown result ≡ singles m counts.now }
{
    passing(m, |r| counts[r] == 1)
}

impl<S: Symbol, C: Code> Heard<'_, S, C> {
    // The missing places.
    fn missing(&self) -> Columns
        ensures { shown result ≡ missing (take (length self.now.table.now) self.now.received.now) }
    {
        let received = self.received;
        passing(self.table.len(), |c| !received[c])
    }

    // Reads row r: its missing columns as a set, the sum of its received symbols, and how many columns are missing. The row is
    // kept for each of these columns.
    fn read_row(&self, kept: &mut Kept, r: usize) -> (bits::Set, S, u16)
        requires row { r < height (C.Rows.matrix self.now.code.now) }
        requires clear { (c : ℕ) → keeps kept.old c r ≡ false }
        ensures noted { Noted kept.old kept.new r result.0 }
        ensures read { Read S.Symbol.kind (C.Rows.matrix self.now.code.now) self.now.received.now self.now.table.now r result.0 result.1 result.2 }
    {
        let mut line = [0; 8];
        let mut side = S::zero();
        let mut lost = 0;
        // The missing ones are counted on the way, so that the set is not walked again.
        for c in self.code.row(r) {
            if self.received[c] {
                add_column(&mut side, self.table, c);
            } else {
                bits::put(&mut line, c);
                keep(kept, c, r);
                lost += 1;
            }
        }
        (line, side, lost)
    }

    // Loads every row, keeps it for its missing columns, and counts these.
    fn load_rows(&self, words: &mut [u64], sides: &mut [S], kept: &mut Kept) -> [u16; 256]
        requires high { length sides.old ≡ height (C.Rows.matrix self.now.code.now) }
        requires within { length words.old ≡ 8 * length sides.old }
        requires clear { kept.old ≡ replicate 2048 0 }
        ensures kept { KeptBelow kept.new words.new (length sides.old) }
        ensures loaded { Loaded S.Symbol.kind (C.Rows.matrix self.now.code.now) self.now.received.now self.now.table.now words.new sides.new result (length sides.old) }
    {
        let mut counts = [0; 256];
        // By place, since after a `zip` over `iter_mut` a proof knows no element.
        for (r, side) in sides.iter_mut().enumerate() {
            let (line, sum, lost) = self.read_row(kept, r);
            bits::put_line(words, r, &line);
            *side = sum;
            counts[r] = lost;
        }
        counts
    }

    // Nothing done yet: the missing places are active, and every row is unused. The lengths stand in its clauses and in those
    // of the functions around it, since what they make is the struct that keeps them.
    fn begin<'m>(
        &self,
        counts: [u16; 256],
        words: &'m mut [u64],
        sides: &'m mut [S],
        kept: &'m Kept,
    ) -> Elimination<'m, S>
        requires few { length sides.old ≤ 256 }
        requires within { length words.old ≡ 8 * length sides.old }
        ensures words { result.words.ghost_name ≡ words.entry.ghost_name }
        ensures sides { result.sides.ghost_name ≡ sides.entry.ghost_name }
        ensures lines { result.words.now ≡ words.old }
        ensures rights { result.sides.now ≡ sides.old }
        ensures kept { result.kept.now ≡ kept.now }
        ensures begun { Begun (length self.now.table.now) (length sides.old) self.now.received.now counts result }
    {
        let m = sides.len();
        Elimination {
            words,
            sides,
            kept,
            active: self.missing(),
            uses: Uses {
                unused: Columns::all(m),
                columns: [0; 256],
            },
            tally: Tally {
                counts,
                ready: lone_rows(m, &counts),
            },
            pivots: ArrayVec::new(),
            free: ArrayVec::new(),
            additions: 0,
        }
    }

    // Loads the rows and begins.
    pub(crate) fn load<'m>(
        &self,
        words: &'m mut [u64],
        sides: &'m mut [S],
        kept: &'m mut Kept,
    ) -> Elimination<'m, S>
        requires high { length sides.old ≡ height (C.Rows.matrix self.now.code.now) }
        requires within { length words.old ≡ 8 * length sides.old }
        requires clear { kept.old ≡ replicate 2048 0 }
        ensures words { result.words.ghost_name ≡ words.entry.ghost_name }
        ensures sides { result.sides.ghost_name ≡ sides.entry.ghost_name }
        ensures long { length result.words.now ≡ length words.old }
        ensures high { length result.sides.now ≡ length sides.old }
        ensures wide { result.active.width ≡ (C.Rows.matrix self.now.code.now).width }
        ensures going { Going S.Symbol.kind result }
        ensures state { bare S.Symbol.kind result ≡ start S.Symbol.kind (C.Rows.matrix self.now.code.now) (marks_in (C.Rows.matrix self.now.code.now) self.now.received.now) self.now.table.now tt }
    {
        let counts = self.load_rows(words, sides, kept);
        self.begin(counts, words, sides, kept)
    }
}
