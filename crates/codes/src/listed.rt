// A code read from the caller's records, in the order of rows and columns.
ghost use Rattle.std.specs.Prelude.{◌≡◌, ◌≤◌, true, false, length, is_some, None};
ghost use Rattle.codes.specs.Records.{first_bad, sizes_fit, begins_at};

use crate::record::Record;
use crate::shape::ROW_ENDS;

mod making;
mod questions;
mod starts;

#[derive(Clone, Copy, PartialEq, Eq, Debug)]
pub struct Listed<'a> {
    m: usize,
    n: usize,
    records: &'a [Record],
    // Where the records of each row begin, and of one row more, so that no question bisects.
    starts: [u16; ROW_ENDS],
    ghost sized: { sizes_fit m n ≡ true },
    ghost rising: { is_some (first_bad m n None 0 records.now) ≡ false },
    ghost few: { length records.now ≤ 4096 },
    ghost every: { length starts ≡ 257 },
    ghost begun: { begins_at records.now 0 starts ≡ true },
}
