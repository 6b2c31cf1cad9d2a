// Solving a block with the code of a pile and the policy of a name.
ghost use Rattle.std.specs.Prelude.{length};
ghost use Rattle.piles.specs.Piles.{pile_code};
ghost use Rattle.receiver.specs.View.{model};
ghost use Rattle.session.specs.Sides.{PileSolved};
ghost use Rattle.session.specs.Tasks.{SolvedStill};

use crate::named::Named;
use codes::{Code, Refusal};
use piles::{Pile, PolicyName, Task, with_code};
use policies::Policy;
use receiver::{Block, Permit, Unsolved};
use symbols::Symbol;

// Solves a block with whatever code it is handed.
#[derive(Drop)]
pub(crate) struct SolveTask<'t, 'a, S> {
    block: &'t mut Block<'a, S>,
    name: PolicyName,
    words: &'t mut [u64],
    sides: &'t mut [S],
}

impl<'t, 'a, S: Symbol> Task for SolveTask<'t, 'a, S> {
    type Out = Result<Permit, Unsolved>;

    ghost does = { λ s k r t. SolvedStill S.Symbol.kind k s r t };

    fn run<C: Code>(&mut self, code: &C) -> Result<Permit, Unsolved> {
        let mut policy = Named { name: self.name };
        self.block.solve(code, &mut policy, self.words, self.sides)
    }
}

// Solves with the code of a pile, where it is one.
pub(crate) fn solve_pile<S: Symbol>(
    block: &mut Block<'_, S>,
    pile: &Pile,
    name: PolicyName,
    words: &mut [u64],
    sides: &mut [S],
) -> Result<Result<Permit, Unsolved>, Refusal>
    ensures { PileSolved S.Symbol.kind (pile_code pile.now) name (length words.old) (length sides.old) (model block.old) result (model block.new) }
{
    let mut task = SolveTask {
        block,
        name,
        words,
        sides,
    };
    with_code(pile, &mut task)
}
