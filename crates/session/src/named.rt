// The policy that a name stands for.
ghost use Rattle.session.specs.Naming.{named_choice};
ghost use Rattle.session.specs.NamingLaws.{named_names};

use codes::Code;
use piles::PolicyName;
use policies::{Columns, Component, First, Heaviest, Policy};

#[derive(Clone, Copy, PartialEq, Eq, Debug)]
pub struct Named {
    pub name: PolicyName,
}

impl Policy for Named {
    ghost choice = { λ k. named_choice k };

    ghost names = { λ k p a u. named_names p.name k p a u };

    fn name<C: Code>(&mut self, code: &C, active: &Columns, unused: &Columns) -> Option<usize> {
        // Each arm makes a policy of another type.
        match self.name {
            PolicyName::First => First.name(code, active, unused),
            PolicyName::Heaviest => Heaviest.name(code, active, unused),
            PolicyName::ComponentFirst => Component { below: First }.name(code, active, unused),
            PolicyName::ComponentHeaviest => {
                Component { below: Heaviest }.name(code, active, unused)
            }
        }
    }
}
