// The calls on a block, all but solve. Each contract says what the call does (step) and that the promise over all
// histories goes on with it (history); lent says that the block still holds the caller's table,
// which of a struct that holds a `&mut` nothing else does.
ghost use Rattle.std.specs.Prelude.{◌≡◌, false, [], ◌∷◌, length, is_ok, IfErr, MatchResult, Ok, Err, None};
ghost use Rattle.receiver.specs.Calls.{open_refusal};
ghost use Rattle.packets.specs.Figure.{percent};
ghost use Rattle.receiver.specs.Blocks.{opened, told_refusal, received_count, mark_at};
ghost use Rattle.receiver.specs.Steps.{Step, receive_event, show_event, shown_event, close_event, renew_event};
ghost use Rattle.receiver.specs.Stands.{Stands, GoesOn, opening};
ghost use Rattle.receiver.specs.View.{model};

use crate::block::steps::{blank, open_fault};
use crate::block::{Block, Out};
use crate::fault::{Fault, Stamp};
use crate::permit::{Permit, Unclosed};
use refusals::Numbered;
use symbols::Symbol;

impl<'a, S: Symbol> Block<'a, S> {
    // Opens a block over the caller's table: every place zero and missing. Refused, the block has no places and tells
    // why, and the table is untouched.
    pub fn open(number: u32, stamp: Stamp, table: &'a mut [S]) -> Block<'a, S>
        ensures lent { result.table.ghost_name ≡ table.entry.ghost_name }
        ensures values { model result ≡ opened S.Symbol.kind number stamp table.old }
        ensures history { open_refusal number stamp (length table.old) ≡ None → Stands S.Symbol.kind (opening number stamp (length table.old)) [] (model result) }
    {
        let n = table.len();
        if let Err(fault) = open_fault(number, stamp, n) {
            return Block {
                table,
                marks: blank(0, 0, Some((fault.number(), fault.value()))),
            };
        }
        let mut block = Block {
            table,
            marks: blank(number, n, None),
        };
        block.begin(stamp);
        block
    }

    // The number and the value of the refusal of its open, if that was refused.
    pub fn refusal(&self) -> Option<(u8, u64)>
        ensures { result ≡ told_refusal (model self.now) }
    {
        self.marks.refused
    }

    // Takes a packet into its place.
    pub fn receive(&mut self, number: u32, stamp: Stamp, place: u32, symbol: S) -> Result<(), Fault>
        ensures lent { self.new.table.ghost_name ≡ self.old.table.ghost_name }
        ensures step { Step S.Symbol.kind (model self.old) (receive_event number stamp place symbol result) (model self.new) }
        ensures history { GoesOn S.Symbol.kind (model self.old) (receive_event number stamp place symbol result ∷ []) (model self.new) }
    {
        if self.marks.out.is_out() {
            return Err(Fault::PermitOut(self.marks.stamp));
        }
        if number != self.marks.number {
            return Err(Fault::OtherBlock(number));
        }
        if stamp != self.marks.stamp {
            return Err(Fault::OtherStamp(self.marks.stamp));
        }
        // By index: of a slice's `get_mut` a proof does not know what was written.
        let p = place as usize;
        if p >= self.marks.n {
            return Err(Fault::NoPlace(place));
        }
        if self.marks.received[p] {
            return Err(Fault::Received(place));
        }
        self.table[p] = symbol;
        self.marks.received[p] = true;
        Ok(())
    }

    // Copies the packet of a place to the caller, under a permit.
    pub fn show(&self, permit: &Permit, place: u32, into: &mut S) -> Result<(), Fault>
        ensures step { Step S.Symbol.kind (model self.now) (show_event permit.now place into.new result) (model self.now) }
        ensures kept { is_ok result ≡ false → into.new ≡ into.old }
        ensures history { GoesOn S.Symbol.kind (model self.now) (show_event permit.now place into.new result ∷ []) (model self.now) }
    {
        *into = *self.at(permit, place)?;
        Ok(())
    }

    // The packet of a place, under a permit.
    pub fn shown(&self, permit: &Permit, place: u32) -> Result<S, Fault>
        ensures step { Step S.Symbol.kind (model self.now) (shown_event permit.now place result) (model self.now) }
        ensures history { GoesOn S.Symbol.kind (model self.now) (shown_event permit.now place result ∷ []) (model self.now) }
    {
        self.at(permit, place).copied()
    }

    // The packet of a place where it lies, under a permit: what `show` and `shown` copy.
    fn at(&self, permit: &Permit, place: u32) -> Result<&S, Fault>
        ensures { MatchResult result (λ x. Step S.Symbol.kind (model self.now) (shown_event permit.now place (Ok x.now)) (model self.now)) (λ f. Step S.Symbol.kind (model self.now) (shown_event permit.now place (Err f)) (model self.now)) }
    {
        if !self.owns(permit) {
            return Err(Fault::NotItsPermit(self.marks.stamp));
        }
        let table = &self.table[..self.marks.n];
        table.get(place as usize).ok_or(Fault::NoPlace(place))
    }

    // Takes the permit back and makes every missing place zero. Refused, it gives the permit back.
    pub fn close(&mut self, permit: Permit) -> Result<(), Unclosed>
        ensures lent { self.new.table.ghost_name ≡ self.old.table.ghost_name }
        ensures step { Step S.Symbol.kind (model self.old) (close_event permit result) (model self.new) }
        ensures back { IfErr result (λ e. e.permit ≡ permit) }
        ensures history { GoesOn S.Symbol.kind (model self.old) (close_event permit result ∷ []) (model self.new) }
    {
        if !self.owns(&permit) {
            return Err(Unclosed {
                stamp: self.marks.stamp,
                permit,
            });
        }
        permit.spend();
        self.clear_missing();
        self.marks.out = Out::Nothing;
        Ok(())
    }

    // Starts over under a later stamp: every place zero and missing.
    pub fn renew(&mut self, stamp: Stamp) -> Result<(), Fault>
        ensures lent { self.new.table.ghost_name ≡ self.old.table.ghost_name }
        ensures step { Step S.Symbol.kind (model self.old) (renew_event stamp result) (model self.new) }
        ensures history { GoesOn S.Symbol.kind (model self.old) (renew_event stamp result ∷ []) (model self.new) }
    {
        if self.marks.out.is_out() {
            return Err(Fault::PermitOut(self.marks.stamp));
        }
        if stamp == 0 {
            return Err(Fault::NoStamp);
        }
        if stamp <= self.marks.stamp {
            return Err(Fault::NotLater(self.marks.stamp));
        }
        self.begin(stamp);
        Ok(())
    }

    // Whether the packet of a place was received; none where there is no such place.
    pub fn mark(&self, place: u32) -> Option<bool>
        ensures { result ≡ mark_at (model self.now) place }
    {
        let received = &self.marks.received[..self.marks.n];
        received.get(place as usize).copied()
    }

    // How much of the block was received, in whole percent.
    pub fn figure(&self) -> u64
        ensures { result ≡ percent (received_count (model self.now)) self.now.marks.n }
    {
        packets::reception_figure(self.count_received(), self.marks.n as u32)
    }
}
