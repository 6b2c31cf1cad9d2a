// The rows not used, and the column of each row that is.
ghost use Rattle.std.specs.Prelude.{◌≡◌, ◌<◌, false, length, slice_set};
ghost use Rattle.policies.specs.Shown.{shown};

use policies::Columns;

// The set stands beside the columns, since a policy is shown it.
#[derive(Clone, Copy, PartialEq, Eq, Debug)]
pub struct Uses {
    pub unused: Columns,
    pub columns: [u16; 256],
    ghost room: { length columns ≡ 256 },
}

impl Uses {
    // Row r is used for column c.
    pub(crate) fn put(&mut self, r: usize, c: usize)
        requires row { r < 256 }
        requires column { c < 512 }
        ensures unused { shown self.new.unused ≡ slice_set (shown self.old.unused) r false }
        ensures columns { self.new.columns ≡ slice_set self.old.columns r c }
    {
        self.unused.leave(r);
        self.columns[r] = c as u16;
    }
}
