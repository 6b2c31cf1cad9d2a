// The steps that the calls on a block are made of, and what refuses an open.
ghost use Rattle.std.specs.Prelude.{◌≡◌, ◌≤◌, take};
ghost use Rattle.std.specs.Result.{result_err};
ghost use Rattle.receiver.specs.Calls.{is_out, owns as own, open_refusal};
ghost use Rattle.receiver.specs.Blocks.{seen, zero_missing, renewed_block, received_count};
ghost use Rattle.receiver.specs.View.{model, Blank};

use crate::block::{Block, Marks, Out};
use crate::fault::{Fault, Stamp};
use crate::permit::Permit;
use symbols::Symbol;

impl Out {
    pub(crate) fn is_out(self) -> bool
        ensures { result ≡ is_out self }
    {
        matches!(self, Out::Full)
    }
}

impl<'a, S: Symbol> Block<'a, S> {
    // Whether the permit is the block's, by its two numbers: its report says nothing of whose it is.
    pub(crate) fn owns(&self, permit: &Permit) -> bool
        ensures { result ≡ own (seen (model self.now)) permit.now }
    {
        self.marks.out.is_out()
            && permit.number() == self.marks.number
            && permit.stamp() == self.marks.stamp
    }

    // How many places were received.
    pub(crate) fn count_received(&self) -> u32
        ensures { result ≡ received_count (model self.now) }
    {
        self.marks.received[..self.marks.n]
            .iter()
            .map(|got| u32::from(*got))
            .sum()
    }

    // Makes each missing place zero.
    pub(crate) fn clear_missing(&mut self)
        ensures lent { self.new.table.ghost_name ≡ self.old.table.ghost_name }
        ensures marks { self.new.marks ≡ self.old.marks }
        ensures table { self.new.table.now ≡ zero_missing S.Symbol.kind.zero (take self.old.marks.n self.old.marks.received) self.old.table.now }
    {
        let marks = &self.marks;
        let table = &mut *self.table;
        // By place, since after a `zip` over `iter_mut` a proof knows no element.
        for (c, got) in marks.received[..marks.n].iter().enumerate() {
            if !*got {
                table[c] = S::zero();
            }
        }
    }

    // Makes every place zero and missing, under a stamp.
    pub(crate) fn begin(&mut self, stamp: Stamp)
        ensures lent { self.new.table.ghost_name ≡ self.old.table.ghost_name }
        ensures values { model self.new ≡ renewed_block S.Symbol.kind stamp (model self.old) }
    {
        self.marks.stamp = stamp;
        self.marks.received = [false; 512];
        self.clear_missing();
    }
}

const LAST_BLOCK: u32 = 4095;

const MOST_PLACES: usize = 512;

// Marks of a block with no stamp yet.
pub(crate) fn blank(number: u32, n: usize, refused: Option<(u8, u64)>) -> Marks
    requires { n ≤ 512 }
    ensures { Blank result number n refused }
{
    Marks {
        number,
        stamp: 0,
        n,
        received: [false; 512],
        out: Out::Nothing,
        refused,
    }
}

// Whether an open is granted, or why it is refused.
pub fn open_fault(number: u32, stamp: Stamp, places: usize) -> Result<(), Fault>
    ensures { result_err result ≡ open_refusal number stamp places }
{
    if number > LAST_BLOCK {
        return Err(Fault::BlockNumber(number));
    }
    if stamp == 0 {
        return Err(Fault::NoStamp);
    }
    if !(1..=MOST_PLACES).contains(&places) {
        return Err(Fault::TableLength(places));
    }
    Ok(())
}
