// The calls that make a code and ask for a row of it, and the lines that answer them.
ghost use Rattle.std.specs.Prelude.{◌≡◌, ◌++◌, IfOk, string_bytes, codes};
ghost use Rattle.std.specs.Option.{option_map};
ghost use Rattle.codes.specs.Refusals.{told};
ghost use Rattle.script.specs.Answers.{values_text};
ghost use Rattle.piles.specs.Answers.{code_text, no_code, row_text};

use crate::pile::Pile;
use crate::row::row_of;
use codes::{Refusal, Shape};
use refusals::Numbered;
use std::alloc::{AllocError, Global};

// The line that tells whether a code is made.
pub fn code_text(heap: Global, answer: Result<Shape, Refusal>) -> Result<String, AllocError>
    ensures { IfOk result (λ s. string_bytes s ≡ code_text (told answer)) }
{
    match answer {
        Ok(shape) => {
            format!(in heap;
                "code granted {} {} {}",
                shape.rows, shape.columns, shape.ones
            )
        }
        Err(refusal) => {
            let number = refusal.number();
            match refusal {
                Refusal::BadShape => format!(in heap; "code refused {number}"),
                Refusal::BadEntry(place) => format!(in heap; "code refused {number} {place}"),
            }
        }
    }
}

// The line that tells of no code.
fn no_code(heap: Global) -> Result<String, AllocError>
    ensures { IfOk result (λ s. string_bytes s ≡ no_code) }
{
    format!(in heap; "row no code in hand")
}

// The line that tells the columns of a row.
fn columns_text(heap: Global, columns: &[usize]) -> Result<String, AllocError>
    ensures { IfOk result (λ s. string_bytes s ≡ codes "row" ++ values_text columns.now) }
{
    let mut text = String::from_str(heap, "row")?;
    for column in columns {
        write!(text, " {column}")?;
    }
    Ok(text)
}

// Tells row r of the code in hand, where there is one.
pub fn tell_row(heap: Global, r: usize, hand: Option<&Pile>) -> Result<String, AllocError>
    ensures { IfOk result (λ s. string_bytes s ≡ row_text r (option_map (λ p. p.now) hand.entry)) }
{
    match hand {
        None => no_code(heap),
        Some(pile) => match row_of(heap, pile, r) {
            Ok(columns) => columns_text(heap, columns?.as_slice()),
            Err(_) => no_code(heap),
        },
    }
}
