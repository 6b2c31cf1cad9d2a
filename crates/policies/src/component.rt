// The policy that names the lowest column of the largest set that rows of weight two join, over another policy.
ghost use Rattle.method.specs.Choices.{component};
ghost use Rattle.policies.specs.Layered.{asking_below};
ghost use Rattle.method.proofs.Tops.{component_names};

use crate::columns::Columns;
use crate::joins::largest_joined;
use crate::policy::Policy;
use codes::Code;

#[derive(Clone, Copy, PartialEq, Eq, Debug)]
pub struct Component<P> {
    pub below: P,
}

impl<P: Policy> Policy for Component<P> {
    ghost choice = { λ k. component k (asking_below (P.Policy.choice k)) };

    ghost names = { λ k. component_names k (asking_below (P.Policy.choice k)) (λ p a u. P.Policy.names k p.below a u) };

    fn name<C: Code>(&mut self, code: &C, active: &Columns, unused: &Columns) -> Option<usize> {
        // Not by `or_else`: it does not say that its closure was not called where there is a column, so that the state of the
        // policy below would not be known.
        match largest_joined(code, active, unused) {
            Some(c) => Some(c),
            None => self.below.name(code, active, unused),
        }
    }
}
