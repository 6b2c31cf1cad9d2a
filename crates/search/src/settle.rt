// Settling: each pivot in turn takes the lowest unused row that holds it, or is free.
ghost use Rattle.std.specs.Prelude.{◌≡◌, ◌+◌, ◌<◌, ◌≤◌, length};
ghost use Rattle.method.specs.Sets.{lowest};
ghost use Rattle.method.specs.Method.{holder, settle_at, steps};
ghost use Rattle.search.specs.Steps.{SameMemory, Going, Room, settled};
ghost use Rattle.search.specs.View.{rows_of, view, bare};

use crate::elimination::Elimination;
use codes::Code;
use policies::Policy;
use symbols::Symbol;

impl<S: Symbol> Elimination<'_, S> {
    // The pivot c takes its row, or is free.
    fn settle_one(&mut self, c: usize)
        requires column { c < self.old.active.width }
        requires added { self.old.additions ≤ 1000000000 }
        requires room { length self.old.free.items < 512 }
        ensures memory { SameMemory self.old self.new }
        ensures pivots { self.new.pivots ≡ self.old.pivots }
        ensures free { length self.new.free.items ≤ length self.old.free.items + 1 }
        ensures few { self.new.additions ≤ self.old.additions + 256 }
        ensures state { bare S.Symbol.kind self.new ≡ settle_at S.Symbol.kind c (lowest (holder c) (rows_of S.Symbol.kind self.old)) (bare S.Symbol.kind self.old) }
    {
        let held = self.holders(c);
        match held.both(&self.uses.unused).least() {
            Some(r) => self.use_row(&held, r, c),
            None => self.free.push(c as u16),
        }
    }

    // Every pivot, in the order in which they were named.
    fn settle_all(&mut self)
        requires { Room self.old }
        ensures memory { SameMemory self.old self.new }
        ensures few { self.new.additions ≤ 1000000 }
        ensures state { bare S.Symbol.kind self.new ≡ settled S.Symbol.kind (bare S.Symbol.kind self.old) }
    {
        // By place, since a step changes the value that the list is in.
        for i in 0..self.pivots.len() {
            let c = usize::from(self.pivots[i]);
            self.settle_one(c);
        }
    }

    // Peels and settles: no column is active and every pivot has its row or is free.
    pub(crate) fn eliminate<C: Code, P: Policy>(&mut self, code: &C, policy: &mut P)
        requires going { Going S.Symbol.kind self.old }
        requires wide { self.old.active.width ≡ (C.Rows.matrix code.now).width }
        ensures memory { SameMemory self.old self.new }
        ensures few { self.new.additions ≤ 1000000 }
        ensures state { view S.Symbol.kind self.new policy.new ≡ settled S.Symbol.kind (steps S.Symbol.kind (P.Policy.choice (C.Rows.matrix code.now)) (C.Rows.matrix code.now).width (view S.Symbol.kind self.old policy.old)) }
    {
        self.peel(code, policy);
        self.settle_all();
    }
}
