// The numbers of a set of columns one after another, the lowest first.
ghost use Rattle.std.specs.Prelude.{◌≡◌};
ghost use Rattle.std.specs.Iterator.{at_most};
ghost use Rattle.method.specs.Sets.{count};
ghost use Rattle.policies.specs.Shown.{shown, Taken};

use crate::columns::Columns;

// What is left of the set.
#[derive(Clone, PartialEq, Eq, Debug, Drop)]
pub struct Members {
    left: Columns,
}

impl Columns {
    // The numbers in the set, rising.
    pub fn iter(&self) -> Members
        ensures { result.left ≡ self.now }
    {
        Members { left: *self }
    }
}

impl Iterator for Members {
    type Item = usize;

    ghost next_gives = { λ s r t. Taken (shown s.left) r (shown t.left) };

    ghost remaining = { λ s. at_most (count (shown s.left)) };

    fn next(&mut self) -> Option<usize> {
        let c = self.left.least()?;
        self.left.leave(c);
        Some(c)
    }
}

impl IntoIterator for &Columns {
    type Item = usize;

    type IntoIter = Members;

    ghost into_iter_gives = { λ s it. it.left ≡ s.now };

    fn into_iter(self) -> Members {
        self.iter()
    }
}
