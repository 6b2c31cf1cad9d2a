// Sets of columns as a forest: each column points at itself or at a lower one of its set, so that the root of a set is its lowest column.
ghost use Rattle.std.specs.Prelude.{◌≡◌, ℕ, ◌<◌};
ghost use Rattle.method.specs.Choices.{size_of};
ghost use Rattle.policies.specs.Numbers.{at};
ghost use Rattle.policies.specs.Forests.{Falling, Labelled, joined, Lifted, Root};
ghost use Rattle.policies.specs.Shown.{shown};

use crate::columns::Columns;
use crate::top::{Numbers, raise};
use codes::MAX_COLUMNS;

// An array, in fixed memory. What indexes it is bounded in the contracts: a type for it would be turned back at each array.
#[derive(Drop)]
pub(crate) struct Forest {
    up: Numbers,
    ghost falling: { Falling up },
}

impl Forest {
    // Every column for itself.
    pub(crate) fn alone() -> Forest
        ensures { Labelled result.up (λ c. c) }
    {
        let mut up = [0; MAX_COLUMNS];
        for (c, root) in up.iter_mut().enumerate() {
            *root = c as u16;
        }
        Forest { up }
    }

    // Points column c at what stands two steps above it.
    fn lift(&mut self, c: usize) -> usize
        requires { c < 512 }
        ensures { Lifted self.old.up self.new.up c result }
    {
        let above = self.up[usize::from(self.up[c])];
        self.up[c] = above;
        usize::from(above)
    }

    // The root of c's set; the way up to it is halved. A `while`, since it walks and counts nothing.
    fn find(&mut self, c: usize) -> usize
        requires { c < 512 }
        ensures { Root self.old.up self.new.up c result }
    {
        let mut k = c;
        while usize::from(self.up[k]) != k {
            k = self.lift(k);
        }
        k
    }

    // Joins the sets of x and y under the lower root.
    pub(crate) fn join(&mut self, x: usize, y: usize)
        requires first { x < 512 }
        requires second { y < 512 }
        ensures { (f : ℕ → ℕ) → Labelled self.old.up f → Labelled self.new.up (joined f x y) }
    {
        let p = self.find(x);
        let q = self.find(y);
        self.up[p.max(q)] = p.min(q) as u16;
    }

    // How many active columns the set of each root has. Each column, active or not, is pointed at its root on the way, since higher ones may point at it.
    pub(crate) fn sizes(&mut self, active: &Columns) -> Numbers
        ensures { (f : ℕ → ℕ) → Labelled self.old.up f → (l : ℕ) → l < 512 → at result l ≡ size_of (shown active.now) f l }
    {
        let mut sizes = [0; MAX_COLUMNS];
        for c in 0..active.width {
            let root = self.lift(c);
            if active.has(c) {
                raise(&mut sizes, root);
            }
        }
        sizes
    }
}
