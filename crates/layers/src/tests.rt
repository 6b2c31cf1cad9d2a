// Layers made and asked in generic functions, on small codes.
ghost use Rattle.std.specs.Prelude.{◌≡◌, false, MatchResult};
ghost use Rattle.codes.specs.Matrix.{column_at, weight};
ghost use Rattle.codes.specs.Refusals.{meaning, bad_shape};
ghost use Rattle.codes.specs.Shapes.{shape_of};
ghost use Rattle.layers.specs.Layers.{squares_fit, interleaved, stack_fits, stacked};

use crate::interleaved::interleave;
use crate::stacked::stack;
use codes::{Code, Listed, Record, Refusal, Rows, Squares};
use std::test::Fail;

fn one(row: u16, column: u16) -> Record {
    Record { row, column }
}

// The column at place i of row r of the interleaved code.
fn turned_column<C: Code + Drop>(
    below: C,
    squares: Squares,
    r: usize,
    i: usize,
) -> Result<Option<usize>, Refusal>
    ensures { MatchResult result (λ d. d ≡ column_at (interleaved squares.a squares.b squares.z (C.Rows.matrix below)) r i) (λ e. (squares_fit squares.a squares.b squares.z (shape_of (C.Rows.matrix below)) ≡ false) × (meaning e ≡ bad_shape)) }
{
    let layer = interleave(below, squares)?;
    Ok(layer.column(r, i))
}

// The weight of row r of the two codes stacked.
fn stacked_weight<P: Code + Drop, Q: Code + Drop>(
    first: P,
    second: Q,
    r: usize,
) -> Result<usize, Refusal>
    ensures { MatchResult result (λ v. v ≡ weight (stacked (P.Rows.matrix first) (Q.Rows.matrix second)) r) (λ e. (stack_fits (P.Rows.matrix first) (Q.Rows.matrix second) ≡ false) × (meaning e ≡ bad_shape)) }
{
    let layer = stack(first, second)?;
    Ok(layer.weight(r))
}

// Whether row r of a pile of two layers holds column c.
fn pile_holds<P: Code + Drop, Q: Code + Drop>(
    first: P,
    second: Q,
    squares: Squares,
    r: usize,
    c: usize,
) -> Result<bool, Refusal> {
    let upper = interleave(first, squares)?;
    let pile = stack(upper, second)?;
    Ok(pile.holds(r, c))
}

#[test]
fn interleaved_rows(rt: HostRuntime) -> Result<(), Fail> {
    let records = [
        one(0, 1),
        one(0, 3),
        one(1, 2),
        one(1, 4),
        one(2, 0),
        one(2, 5),
    ];
    let mut code = Listed::smallest();
    code.make(3, 6, &records)?;
    let squares = Squares { a: 1, b: 2, z: 3 };
    assert_eq!(rt; turned_column(code, squares, 0, 0)?, Some(2));
    assert_eq!(rt; turned_column(code, squares, 0, 1)?, Some(1));
    assert_eq!(rt; turned_column(code, squares, 2, 1)?, Some(5));
    assert_eq!(rt; turned_column(code, squares, 3, 0)?, None);
    assert_eq!(rt;
        turned_column(code, Squares { a: 3, b: 6, z: 1 }, 0, 0)?,
        Some(1),
        "squares of one place turn nothing"
    );
    assert_eq!(rt;
        turned_column(
            code,
            Squares {
                a: usize::MAX,
                b: 2,
                z: 3
            },
            0,
            0
        ),
        Err(Refusal::BadShape)
    );
    Ok(())
}

// The weight of row r of three listed rows over one.
fn weight_of_stack(upper: &[Record], lower: &[Record], r: usize) -> Result<usize, Refusal> {
    let mut p = Listed::smallest();
    p.make(3, 6, upper)?;
    let mut q = Listed::smallest();
    q.make(1, 6, lower)?;
    stacked_weight(p, q, r)
}

// Whether row r of the same holds column c, the upper rows interleaved.
fn pile_of_lists_holds(
    upper: &[Record],
    lower: &[Record],
    r: usize,
    c: usize,
) -> Result<bool, Refusal> {
    let mut p = Listed::smallest();
    p.make(3, 6, upper)?;
    let mut q = Listed::smallest();
    q.make(1, 6, lower)?;
    pile_holds(p, q, Squares { a: 1, b: 2, z: 3 }, r, c)
}

#[test]
fn stacked_rows(rt: HostRuntime) -> Result<(), Fail> {
    let upper = [one(0, 1), one(0, 3), one(2, 0)];
    let lower = [one(0, 2)];
    assert_eq!(rt; weight_of_stack(&upper, &lower, 0)?, 2);
    assert_eq!(rt; weight_of_stack(&upper, &lower, 3)?, 1);
    assert_eq!(rt; weight_of_stack(&upper, &lower, 4)?, 0);
    assert_eq!(rt; pile_of_lists_holds(&upper, &lower, 0, 2)?, true);
    assert_eq!(rt; pile_of_lists_holds(&upper, &lower, 3, 3)?, false);
    Ok(())
}

#[test]
fn refused_stacks(rt: HostRuntime) -> Result<(), Fail> {
    let records = [one(0, 2)];
    let mut p = Listed::smallest();
    p.make(3, 6, &records)?;
    let mut q = Listed::smallest();
    q.make(253, 6, &records)?;
    assert_eq!(rt; stacked_weight(p, q, 3)?, 1);
    q.make(254, 6, &records)?;
    assert_eq!(rt; stacked_weight(p, q, 0), Err(Refusal::BadShape));
    q.make(1, 5, &records)?;
    assert_eq!(rt; stacked_weight(p, q, 0), Err(Refusal::BadShape));
    Ok(())
}
