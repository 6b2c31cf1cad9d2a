// Where each row's records begin, found in one pass over the records.
ghost use Rattle.std.specs.Prelude.{◌≡◌, ℕ, ◌≤◌, true, length};
ghost use Rattle.codes.specs.Records.{lower, begins_at};

use crate::record::Record;
use crate::shape::ROW_ENDS;

// How many records stand before the first that is not of a row below r.
fn lower(records: &[Record], r: usize) -> usize
    ensures { result ≡ lower records.now r }
{
    records
        .iter()
        .take_while(|k| usize::from(k.row) < r)
        .count()
}

// Where the records of each row begin.
#[tactic(auto, using(crate::proofs::Starts::lower_most))]
pub(crate) fn row_starts(records: &[Record]) -> [u16; ROW_ENDS]
    requires { length records.now ≤ 4096 }
    ensures every { length result ≡ 257 }
    ensures begun { begins_at records.now 0 result ≡ true }
{
    let mut starts = [0; ROW_ENDS];
    let mut p = 0;
    for (r, start) in starts.iter_mut().enumerate() {
        p += lower(&records[p..], r);
        *start = p as u16;
    }
    starts
}
