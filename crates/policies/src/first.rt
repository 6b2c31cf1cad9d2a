// The policy that names the lowest active column.
ghost use Rattle.method.specs.Choices.{plain, first};
ghost use Rattle.method.proofs.Tops.{first_names};

use crate::columns::Columns;
use crate::policy::Policy;
use codes::Code;

#[derive(Clone, Copy, PartialEq, Eq, Debug)]
pub struct First;

impl Policy for First {
    ghost choice = { λ k. plain (λ a u. first a) };

    ghost names = { λ k p a u. first_names a };

    fn name<C: Code>(&mut self, code: &C, active: &Columns, unused: &Columns) -> Option<usize> {
        active.least()
    }
}
