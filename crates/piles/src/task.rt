// A task that any code can be handed to, and how it is done with the code of a pile.
ghost use Rattle.codes.specs.Matrix.{Matrix};
ghost use Rattle.std.specs.Prelude.{Ok};
ghost use Rattle.piles.specs.Piles.{turned, joined, pile_code, Done};
ghost use Rattle.piles.specs.Bases.{base_code};

use crate::base::Base;
use crate::code::BaseCode;
use crate::pile::Pile;
use codes::{Code, Refusal, Squares};
use layers::{interleave, stack};

// A trait, since a closure cannot be generic over the code that it is handed.
pub trait Task {
    type Out;

    // What is done: the task before, the code's matrix, the answer, and the task after.
    ghost does: { Self → Matrix → Self.Out → Self → Type 0 };

    fn run<C: Code>(&mut self, code: &C) -> Self::Out
        ensures { does self.old (C.Rows.matrix code.now) result self.new };
}

// Does a task with an interleaved code.
fn with_interleaved<C: Code + Drop, T: Task>(
    below: C,
    squares: Squares,
    task: &mut T,
) -> Result<T::Out, Refusal>
    ensures { Done T.Task.does task.old task.new (turned squares (Ok (C.Rows.matrix below))) result }
{
    let layer = interleave(below, squares)?;
    Ok(task.run(&layer))
}

// Does a task with two codes stacked.
fn with_stack<P: Code + Drop, Q: Code + Drop, T: Task>(
    first: P,
    second: Q,
    task: &mut T,
) -> Result<T::Out, Refusal>
    ensures { Done T.Task.does task.old task.new (joined (Ok (P.Rows.matrix first)) (Ok (Q.Rows.matrix second))) result }
{
    let layer = stack(first, second)?;
    Ok(task.run(&layer))
}

// Does a task with a stack whose first code is interleaved; the second is made after it.
fn with_interleaved_in_stack<C: Code + Drop, T: Task>(
    below: C,
    squares: Squares,
    second: &Base,
    task: &mut T,
) -> Result<T::Out, Refusal>
    ensures { Done T.Task.does task.old task.new (joined (turned squares (Ok (C.Rows.matrix below))) (base_code second.now)) result }
{
    let upper = interleave(below, squares)?;
    with_stack(upper, BaseCode::of(second)?, task)
}

// Does a task with a stack that is interleaved.
fn with_interleaved_stack<P: Code + Drop, Q: Code + Drop, T: Task>(
    first: P,
    second: Q,
    squares: Squares,
    task: &mut T,
) -> Result<T::Out, Refusal>
    ensures { Done T.Task.does task.old task.new (turned squares (joined (Ok (P.Rows.matrix first)) (Ok (Q.Rows.matrix second)))) result }
{
    let layer = stack(first, second)?;
    with_interleaved(layer, squares, task)
}

// Does a task with the code of a pile, or tells why the pile is none.
pub fn with_code<T: Task>(pile: &Pile, task: &mut T) -> Result<T::Out, Refusal>
    ensures { Done T.Task.does task.old task.new (pile_code pile.now) result }
{
    match pile {
        Pile::Single(base) => {
            let code = BaseCode::of(base)?;
            Ok(task.run(&code))
        }
        Pile::Interleaved(squares, base) => {
            with_interleaved(BaseCode::of(base)?, *squares, task)
        }
        Pile::Stacked(upper, lower) => {
            let (first, second) = (BaseCode::of(upper)?, BaseCode::of(lower)?);
            with_stack(first, second, task)
        }
        Pile::InterleavedInStack(squares, upper, lower) => {
            with_interleaved_in_stack(BaseCode::of(upper)?, *squares, lower, task)
        }
        Pile::InterleavedStack(squares, upper, lower) => {
            let (first, second) = (BaseCode::of(upper)?, BaseCode::of(lower)?);
            with_interleaved_stack(first, second, *squares, task)
        }
    }
}
