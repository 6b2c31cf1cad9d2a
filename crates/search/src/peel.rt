// Peeling: each row with just one active column is used for it; where there is none, the policy names a pivot.
ghost use Rattle.std.specs.Prelude.{◌≡◌, ℕ, ◌+◌, ◌-◌, ◌<◌, ◌≤◌, true, ◌&&◌, map, length, Some, MatchBool, ◌==◌, slice_index, slice_set};
ghost use Rattle.std.specs.List.{range_with_len};
ghost use Rattle.bits.specs.Sets.{row};
ghost use Rattle.method.specs.Sets.{has, meet, lowest};
ghost use Rattle.method.specs.Method.{spend, named, steps};
ghost use Rattle.policies.specs.Shown.{marks_of, shown};
ghost use Rattle.search.specs.Rows.{holding};
ghost use Rattle.search.specs.Steps.{SameMemory, Going, Ready, Lowered, Moved, Ended};
ghost use Rattle.search.specs.View.{rows_of, view, bare};

use crate::elimination::Elimination;
use crate::rows::add_to_each;
use crate::tally::Tally;
use codes::Code;
use policies::{Columns, Policy};
use symbols::Symbol;

impl Tally {
    // Row q has one active column fewer.
    fn lower_one(&mut self, q: usize, unused: &Columns)
        requires row { q < 256 }
        requires some { 0 < slice_index self.old.counts q }
        ensures counts { self.new.counts ≡ slice_set self.old.counts q (slice_index self.old.counts q - 1) }
        ensures ready { shown self.new.ready ≡ slice_set (shown self.old.ready) q (has (shown unused.now) q && slice_index self.old.counts q - 1 == 1) }
    {
        self.counts[q] -= 1;
        let ready = unused.has(q) && self.counts[q] == 1;
        self.ready.turn(q, ready);
    }

    // Each of these rows has one active column fewer.
    pub(crate) fn lower(&mut self, held: &Columns, unused: &Columns)
        requires few { held.now.width ≤ 256 }
        requires width { self.old.ready.width ≡ held.now.width }
        requires some { (q : ℕ) → has (shown held.now) q ≡ true → 0 < slice_index self.old.counts q }
        ensures { Lowered (shown held.now) (shown unused.now) self.old self.new }
    {
        for q in held {
            self.lower_one(q, unused);
        }
    }
}

// The lowest active column of row r.
fn active_in(words: &[u64], active: &Columns, r: usize) -> Option<usize>
    ensures { result ≡ lowest (λ b. b) (meet (marks_of active.now.width (row words.now r)) (shown active.now)) }
{
    bits::least(&bits::shared(&bits::line_at(words, r), &active.words))
}

impl<S: Symbol> Elimination<'_, S> {
    // The lowest ready row, and its one active column.
    fn next_ready(&self) -> Option<(usize, usize)>
        requires { Going S.Symbol.kind self.now }
        ensures { Ready S.Symbol.kind (shown self.now.active) (rows_of S.Symbol.kind self.now) result }
    {
        let r = self.tally.ready.least()?;
        let c = active_in(self.words, &self.active, r)?;
        Some((r, c))
    }

    // The rows that hold column c.
    pub(crate) fn holders(&self, c: usize) -> Columns
        ensures { shown result ≡ map (holding self.now.words.now c) (range_with_len 0 (length self.now.sides.now)) }
    {
        Columns {
            words: bits::holders(self.words, c),
            width: self.sides.len(),
        }
    }

    // Row r is used for column c, and added to every other row that holds it.
    pub(crate) fn use_row(&mut self, held: &Columns, r: usize, c: usize)
        requires held { shown held.now ≡ map (holding self.old.words.now c) (range_with_len 0 (length self.old.sides.now)) }
        requires row { r < length self.old.sides.now }
        requires column { c < self.old.active.width }
        requires room { self.old.additions ≤ 1000000000 }
        ensures memory { SameMemory self.old self.new }
        ensures tally { self.new.tally ≡ self.old.tally }
        ensures kept { self.new.kept ≡ self.old.kept }
        ensures pivots { self.new.pivots ≡ self.old.pivots }
        ensures free { self.new.free ≡ self.old.free }
        ensures few { self.new.additions ≤ self.old.additions + 256 }
        ensures state { bare S.Symbol.kind self.new ≡ spend S.Symbol.kind r c (bare S.Symbol.kind self.old) }
    {
        let mut others = *held;
        others.leave(r);
        self.active.leave(c);
        self.uses.put(r, c);
        let added = add_to_each(self.words, self.sides, r, &others);
        self.additions += added;
    }

    // The row r, ready for column c, is used for it.
    fn peel_row(&mut self, r: usize, c: usize)
        requires going { Going S.Symbol.kind self.old }
        requires ready { Ready S.Symbol.kind (shown self.old.active) (rows_of S.Symbol.kind self.old) (Some (r, c)) }
        ensures memory { SameMemory self.old self.new }
        ensures going { Going S.Symbol.kind self.new }
        ensures state { bare S.Symbol.kind self.new ≡ spend S.Symbol.kind r c (bare S.Symbol.kind self.old) }
    {
        let held = self.active_holders(c);
        self.use_row(&held, r, c);
        let unused = self.uses.unused;
        self.tally.lower(&held, &unused);
    }

    // Column c becomes a pivot.
    fn put_pivot(&mut self, c: usize)
        requires going { Going S.Symbol.kind self.old }
        requires active { has (shown self.old.active) c ≡ true }
        ensures memory { SameMemory self.old self.new }
        ensures going { Going S.Symbol.kind self.new }
        ensures state { bare S.Symbol.kind self.new ≡ named (Some c) tt (bare S.Symbol.kind self.old) }
    {
        let held = self.active_holders(c);
        let unused = self.uses.unused;
        self.active.leave(c);
        self.tally.lower(&held, &unused);
        self.pivots.push(c as u16);
    }

    // One step; false where no column is active. A `bool`, since the loop below reads it at once.
    fn advance<C: Code, P: Policy>(&mut self, code: &C, policy: &mut P) -> bool
        requires { Going S.Symbol.kind self.old }
        ensures memory { SameMemory self.old self.new }
        ensures going { Going S.Symbol.kind self.new }
        ensures stepped { MatchBool result (Moved S.Symbol.kind (P.Policy.choice (C.Rows.matrix code.now)) (view S.Symbol.kind self.old policy.old) (view S.Symbol.kind self.new policy.new)) (Ended (view S.Symbol.kind self.old policy.old) (view S.Symbol.kind self.new policy.new)) }
    {
        if let Some((r, c)) = self.next_ready() {
            self.peel_row(r, c);
            return true;
        }
        if self.active.least().is_none() {
            return false;
        }
        let Some(c) = policy.name(code, &self.active, &self.uses.unused) else {
            return false;
        };
        self.put_pivot(c);
        true
    }

    // Steps until no column is active. That the set is as wide as the code is asked here and by the two that call this: with the
    // code in the struct, the methods that need none would be generic in it.
    pub(crate) fn peel<C: Code, P: Policy>(&mut self, code: &C, policy: &mut P)
        requires going { Going S.Symbol.kind self.old }
        requires wide { self.old.active.width ≡ (C.Rows.matrix code.now).width }
        ensures memory { SameMemory self.old self.new }
        ensures going { Going S.Symbol.kind self.new }
        ensures state { view S.Symbol.kind self.new policy.new ≡ steps S.Symbol.kind (P.Policy.choice (C.Rows.matrix code.now)) (C.Rows.matrix code.now).width (view S.Symbol.kind self.old policy.old) }
    {
        // It counts nothing.
        while self.advance(code, policy) {}
    }
}
