// Solve: the search on a block's table, and the permit where just one codeword agrees.
ghost use Rattle.std.specs.Prelude.{◌≡◌, [], ◌∷◌, length};
ghost use Rattle.receiver.specs.Solves.{solved, named, search_of, solve_event};
ghost use Rattle.receiver.specs.Stands.{GoesOn};
ghost use Rattle.receiver.specs.View.{model};

use crate::block::{Block, Out};
use crate::fault::{Fault, Unsolved};
use crate::permit::Permit;
use codes::Code;
use policies::Policy;
use symbols::Symbol;

impl<'a, S: Symbol> Block<'a, S> {
    // Searches for the one codeword that agrees with what was received, fills the missing places and gives a permit.
    pub fn solve<C: Code, P: Policy>(
        &mut self,
        code: &C,
        policy: &mut P,
        words: &mut [u64],
        sides: &mut [S],
    ) -> Result<Permit, Unsolved>
        ensures lent { self.new.table.ghost_name ≡ self.old.table.ghost_name }
        ensures step { record { answer = result; block = model self.new; policy = policy.new; words = words.new; sides = sides.new } ≡ solved S.Symbol.kind P.Policy.choice (C.Rows.matrix code.now) (model self.old) policy.old words.old sides.old }
        ensures history { GoesOn S.Symbol.kind (model self.old) (solve_event (search_of (C.Rows.matrix code.now) (length words.old) (length sides.old)) (named S.Symbol.kind P.Policy.choice (C.Rows.matrix code.now) (model self.old) policy.old) result ∷ []) (model self.new) }
    {
        // The case is written out: through a `From` of `Fault` the line would hide which is made.
        if self.marks.out.is_out() {
            return Err(Unsolved::Refused(Fault::PermitOut(self.marks.stamp)));
        }
        let n = code.shape().columns;
        if n != self.marks.n {
            return Err(Unsolved::Refused(Fault::OtherWidth(n)));
        }
        let marks = &self.marks;
        let report = search::search(
            code,
            policy,
            &mut self.table[..n],
            &marks.received,
            words,
            sides,
        )?;
        self.marks.out = Out::Full;
        Ok(Permit::new(self.marks.number, self.marks.stamp, report))
    }
}
