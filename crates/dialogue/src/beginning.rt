// Up to the first call of a script, which may say what symbols the script is about.
ghost use Rattle.std.specs.Prelude.{◌≡◌, [], IfOk, MatchOption, map, vec_items, true};
ghost use Rattle.dialogue.specs.Beginnings.{other_call, Begins, Begun};
ghost use Rattle.dialogue.specs.Sayings.{saying, Saying.say_symbols};
ghost use Rattle.dialogue.specs.Scores.{line};

use crate::lines::Lines;
use crate::reading::read_said;
use crate::said::{Said, SymbolName};
use crate::score::Answer;
use script::{passed_over, refuse_line};
use std::alloc::{AllocError, Global};
use symbols::Cell;

// What a line is that comes before any call.
#[derive(Drop)]
pub(crate) enum FirstLine {
    PassedOver,
    // With the answer to it.
    NoCall(String),
    Symbols(SymbolName),
    OtherCall,
}

// The symbols that a call says the script is about; none where it is another call.
fn symbols_said(said: &Said<Cell>) -> Option<SymbolName>
    ensures { MatchOption result (other_call (saying said.now) ≡ true) (λ k. saying said.now ≡ say_symbols k) }
{
    match said {
        Said::Symbols(name) => Some(*name),
        _ => None,
    }
}

// Before anything is said of them, symbols are cells.
fn first_line(heap: Global, number: usize, line: &[u8]) -> Result<FirstLine, AllocError>
    ensures { IfOk result (λ f. Begins number line.now f) }
{
    if passed_over(line) {
        return Ok(FirstLine::PassedOver);
    }
    let Some(said) = read_said::<Cell>(heap, line)? else {
        return Ok(FirstLine::NoCall(refuse_line(heap, number as u64, line)?));
    };
    match symbols_said(&said) {
        Some(name) => Ok(FirstLine::Symbols(name)),
        None => Ok(FirstLine::OtherCall),
    }
}

// Reads up to the first call, or behind it where it says which symbols the script is about.
pub(crate) fn begin(
    heap: Global,
    lines: &mut Lines<'_>,
    answers: &mut Vec<Answer>,
) -> Result<SymbolName, AllocError>
    requires first { lines.old.before ≡ 0 }
    requires none { vec_items answers.old ≡ [] }
    ensures { IfOk result (λ n. Begun lines.old.rest.now n (map line (vec_items answers.new)) lines.new.rest.now lines.new.before) }
{
    let mut ahead = *lines;
    while let Some((number, line)) = ahead.next() {
        match first_line(heap, number, line)? {
            FirstLine::PassedOver => {}
            FirstLine::NoCall(told) => answers.push(Answer::Text(told))?,
            FirstLine::Symbols(name) => {
                answers.push(Answer::Text(String::from_str(heap, "symbols granted")?))?;
                *lines = ahead;
                return Ok(name);
            }
            FirstLine::OtherCall => return Ok(SymbolName::Cell),
        }
        *lines = ahead;
    }
    Ok(SymbolName::Cell)
}
