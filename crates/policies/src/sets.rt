// What a set of columns is asked, and how it changes.
ghost use Rattle.std.specs.Prelude.{◌≡◌, ℕ, ◌<◌, ◌≤◌, min, true, false, replicate, slice_set};
ghost use Rattle.bits.specs.Sets.{holds};
ghost use Rattle.method.specs.Sets.{has, meet, lowest};
ghost use Rattle.policies.specs.Shown.{marks_of, shown};

use crate::columns::Columns;
use bits::Set;

impl Columns {
    // None of the numbers below the width, which is 512 at most.
    pub fn none(width: usize) -> Columns
        ensures { shown result ≡ replicate (min width 512) false }
    {
        Columns {
            words: [0; 8],
            width: width.min(512),
        }
    }

    // All of the numbers below the width, which is 512 at most, put in one by one: filled words would need the last one apart.
    pub fn all(width: usize) -> Columns
        ensures { shown result ≡ replicate (min width 512) true }
    {
        let mut set = Columns::none(width);
        for c in 0..set.width {
            set.put(c);
        }
        set
    }

    // Whether c is in the set.
    pub fn has(&self, c: usize) -> bool
        ensures { result ≡ has (shown self.now) c }
    {
        bits::has(&self.words, c)
    }

    // Puts c in, if it lies below the width.
    pub fn put(&mut self, c: usize)
        ensures { shown self.new ≡ slice_set (shown self.old) c true }
    {
        self.turn(c, true);
    }

    // Takes c out.
    pub fn leave(&mut self, c: usize)
        ensures { shown self.new ≡ slice_set (shown self.old) c false }
    {
        self.turn(c, false);
    }

    // Puts c in or takes it out, as `on` says, if it lies below the width; without a branch on that.
    pub fn turn(&mut self, c: usize, on: bool)
        ensures { shown self.new ≡ slice_set (shown self.old) c on }
    {
        if c < self.width {
            bits::put(&mut self.words, c);
            bits::flip_if(&mut self.words, c, !on);
        }
    }

    // What is in both sets, as wide as the narrower.
    pub fn both(&self, other: &Columns) -> Columns
        ensures { shown result ≡ meet (shown self.now) (shown other.now) }
    {
        Columns {
            words: bits::shared(&self.words, &other.words),
            width: self.width.min(other.width),
        }
    }

    // The lowest number in the set.
    pub fn least(&self) -> Option<usize>
        ensures { result ≡ lowest (λ b. b) (shown self.now) }
    {
        bits::least(&self.words)
    }
}
