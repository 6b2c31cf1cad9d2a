// A policy of one's own: it names the highest active column.
ghost use Rattle.method.specs.Choices.{plain};
ghost use Rattle.guests.specs.LastNames.{last_names};
ghost use Rattle.guests.specs.Lasts.{last};

use codes::Code;
use policies::{Columns, Policy};

#[derive(Clone, Copy, PartialEq, Eq, Debug)]
pub struct Last;

impl Policy for Last {
    ghost choice = { λ k. plain (λ a u. last a) };

    ghost names = { λ k p a u. last_names a };

    fn name<C: Code>(&mut self, code: &C, active: &Columns, unused: &Columns) -> Option<usize> {
        let mut last = None;
        for c in 0..active.width {
            if active.has(c) {
                last = Some(c);
            }
        }
        last
    }
}
