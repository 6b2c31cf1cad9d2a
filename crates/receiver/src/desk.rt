// A block with the permit in its hand.
ghost use Rattle.std.specs.Prelude.{◌≡◌, is_some, None};
ghost use Rattle.receiver.specs.Holding.{Holding, ClosedUnder};
ghost use Rattle.receiver.specs.View.{model};

use crate::block::Block;
use crate::permit::Permit;
use symbols::Symbol;

// The permit in hand is the block's, and none is in hand only where none is out. No equality, since it holds what is lent.
pub struct Desk<'a, S> {
    pub block: Block<'a, S>,
    pub held: Option<Permit>,
    ghost holding: { ∥ Holding (model block) held ∥₁ },
}

impl<'a, S: Symbol> Desk<'a, S> {
    // Closes the block under the permit in hand, and tells whether one was.
    pub fn close(&mut self) -> bool
        ensures lent { self.new.block.table.ghost_name ≡ self.old.block.table.ghost_name }
        ensures told { result ≡ is_some self.old.held }
        ensures held { self.new.held ≡ None }
        ensures closed { ClosedUnder S.Symbol.kind (model self.old.block) self.old.held (model self.new.block) }
    {
        let Some(permit) = self.held.take() else {
            return false;
        };
        match self.block.close(permit) {
            Ok(()) => true,
            Err(_kept) => unreachable(),
        }
    }
}
