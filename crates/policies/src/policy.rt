// The interface of a policy.
ghost use Rattle.std.specs.Prelude.{◌≡◌};
ghost use Rattle.codes.specs.Matrix.{Matrix};
ghost use Rattle.method.specs.Method.{Choice};
ghost use Rattle.method.specs.Choices.{Naming};
ghost use Rattle.policies.specs.Shown.{shown};

use crate::columns::Columns;
use codes::Code;

pub trait Policy {
    // What the policy names for a code, and its state after that.
    ghost choice: { Matrix → Choice Self };

    // The column named, of the active columns and the unused rows; none only where no column is active.
    fn name<C: Code>(&mut self, code: &C, active: &Columns, unused: &Columns) -> Option<usize>
        ensures { (result, self.new) ≡ choice (C.Rows.matrix code.now) self.old (shown active.now) (shown unused.now) };

    ghost names: { (k : Matrix) → Naming (choice k) };
}
