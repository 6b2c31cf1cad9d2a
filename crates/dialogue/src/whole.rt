// The answers to a whole script.
ghost use Rattle.std.specs.Prelude.{◌≡◌, length, ◌+◌, ◌++◌, [], max, cond, map, codes, IfOk, IfSome, string_bytes, vec_items};
ghost use Rattle.session.specs.Sides.{memory_of};
ghost use Rattle.dialogue.specs.Scores.{line, part};
ghost use Rattle.dialogue.specs.Scripts.{places_of, words_of, symbols_of, places_asked, words_asked, symbols_asked, first_text, rest_after, lines_text, left_text, ReadsOne, ReadAll, Performed, AnsweredIn, Answered};

use crate::beginning::begin;
use crate::grid::Grid;
use crate::lines::Lines;
use crate::reading::read_said;
use crate::said::SymbolName;
use crate::score::{Answer, Score};
use crate::spelled::Spelled;
use crate::telling::Told;
use receiver::open_fault;
use script::{passed_over, refuse_line};
use session::{Call, Entry, Left, Order, play};
use std::alloc::{AllocError, Global};
use symbols::{Bit, Cell, Dated, Word};

// The memory that a session takes: places for the tables of its blocks, and working memory.
#[derive(Clone, Copy, PartialEq, Eq, Debug)]
struct Room {
    places: usize,
    words: usize,
    symbols: usize,
}

impl Room {
    // With what one more call asks for; none where no memory is so large.
    fn with<S>(self, order: &Order<S>) -> Option<Room>
        ensures places { IfSome result (λ r. r.places ≡ self.places + places_of order.now) }
        ensures words { IfSome result (λ r. r.words ≡ max self.words (words_of order.now)) }
        ensures symbols { IfSome result (λ r. r.symbols ≡ max self.symbols (symbols_of order.now)) }
    {
        match order {
            Order::Open {
                number,
                stamp,
                places,
            } if open_fault(*number, *stamp, *places).is_ok() => Some(Room {
                places: self.places.checked_add(*places)?,
                ..self
            }),
            Order::Solve { words, symbols, .. } => Some(Room {
                words: self.words.max(*words),
                symbols: self.symbols.max(*symbols),
                ..self
            }),
            _ => Some(self),
        }
    }

    // What calls ask for.
    fn of<S>(calls: &[Call<S>]) -> Option<Room>
        ensures places { IfSome result (λ r. r.places ≡ places_asked calls.now) }
        ensures words { IfSome result (λ r. r.words ≡ words_asked calls.now) }
        ensures symbols { IfSome result (λ r. r.symbols ≡ symbols_asked calls.now) }
    {
        let mut room = Room {
            places: 0,
            words: 0,
            symbols: 0,
        };
        for call in calls {
            room = room.with(&call.order)?;
        }
        Some(room)
    }
}

// One more line of the script.
fn read_line<S: Spelled>(
    heap: Global,
    score: &mut Score<S>,
    number: usize,
    line: &[u8],
) -> Result<(), AllocError>
    ensures { IfOk result (λ u. ReadsOne S.Spelled.spelling (part score.old) (record { number = number; text = line.now }) (part score.new)) }
{
    if passed_over(line) {
        return Ok(());
    }
    match read_said(heap, line)? {
        Some(said) => score.take(heap, said),
        None => score.say(refuse_line(heap, number as u64, line)?),
    }
}

// The lines of a script, behind those that were answered already.
fn read_lines<S: Spelled>(
    heap: Global,
    mut lines: Lines<'_>,
    answers: Vec<Answer>,
) -> Result<Score<S>, AllocError>
    ensures { IfOk result (λ x. ReadAll S.Spelled.spelling (map line (vec_items answers)) lines.entry.rest.now lines.entry.before (part x)) }
{
    let mut score = Score::new(heap, answers);
    while let Some((number, line)) = lines.next() {
        read_line(heap, &mut score, number, line)?;
    }
    Ok(score)
}

// Tells the answer to one line, by what comes next in the log, and gives what is left of it.
fn tell_line<'a, S: Spelled>(
    text: &mut String,
    answer: &Answer,
    log: &'a [Entry<S>],
) -> Result<&'a [Entry<S>], AllocError>
    ensures text { IfOk result (λ r. string_bytes text.new ≡ string_bytes text.old ++ (first_text S.Spelled.spelling (line answer.now) log.now ++ codes "\n")) }
    ensures rest { IfOk result (λ r. r.now ≡ rest_after (line answer.now) log.now) }
{
    match (answer, log) {
        (Answer::Text(told), _) => {
            write!(text, "{told}\n")?;
            Ok(log)
        }
        (Answer::Entry(verb), [entry, rest @ ..]) => {
            let told = Told { verb: *verb, entry };
            write!(text, "{told}\n")?;
            Ok(rest)
        }
        (Answer::Entry(_), []) => {
            text.push_str("\n")?;
            Ok(log)
        }
        (Answer::Grid { places }, _) => {
            let asked = *places as usize * 2 + 1;
            let (entries, rest) = log.split_at(asked.min(log.len()));
            let grid = Grid { entries };
            write!(text, "{grid}\n")?;
            Ok(rest)
        }
    }
}

// Tells of a permit that was closed at the end.
fn tell_left(text: &mut String, closed: bool) -> Result<(), AllocError>
    ensures { IfOk result (λ u. string_bytes text.new ≡ string_bytes text.old ++ cond closed (codes "close granted\n") []) }
{
    if closed {
        text.push_str("close granted\n")?;
    }
    Ok(())
}

// Tells the answers, line by line, and the permits that were closed at the end.
fn tell<S: Spelled>(
    heap: Global,
    answers: &[Answer],
    log: &[Entry<S>],
    left: Left,
) -> Result<String, AllocError>
    ensures { IfOk result (λ s. string_bytes s ≡ lines_text S.Spelled.spelling (map line answers.now) log.now ++ left_text left) }
{
    let mut text = String::new(heap);
    let mut rest = log;
    for answer in answers {
        rest = tell_line(&mut text, answer, rest)?;
    }
    tell_left(&mut text, left.first)?;
    tell_left(&mut text, left.second)?;
    Ok(text)
}

// Makes the calls as those of a session, in this memory, and tells its log.
fn perform<S: Spelled>(
    heap: Global,
    score: &Score<S>,
    tables: &mut [S],
    words: &mut [u64],
    sides: &mut [S],
    log: &mut [Entry<S>],
) -> Result<String, AllocError>
    requires { length log.old ≡ length (vec_items score.now.calls) }
    ensures { IfOk result (λ s. Performed S.Symbol.kind S.Carried.carriage S.Spelled.spelling (part score.now) (length tables.old) (memory_of words.old sides.old) (string_bytes s)) }
{
    let codes = score.codes.as_slice();
    let calls = score.calls.as_slice();
    let Ok(left) = play(codes, calls, tables, words, sides, log) else {
        unreachable()
    };
    tell(heap, score.answers.as_slice(), log, left)
}

// Answers the lines of a script about one kind of symbols.
fn answer_in<S: Spelled>(
    heap: Global,
    lines: Lines<'_>,
    answers: Vec<Answer>,
) -> Result<String, AllocError>
    ensures { IfOk result (λ s. AnsweredIn S.Symbol.kind S.Carried.carriage S.Spelled.spelling (map line (vec_items answers)) lines.entry.rest.now lines.entry.before (string_bytes s)) }
{
    let score = read_lines::<S>(heap, lines, answers)?;
    let room = Room::of(score.calls.as_slice()).ok_or(AllocError)?;
    let mut tables = vec![in heap; S::zero(); room.places]?;
    let mut words = vec![in heap; 0; room.words]?;
    let mut sides = vec![in heap; S::zero(); room.symbols]?;
    let mut log = vec![in heap; Entry::NoBlock; score.calls.len()]?;
    perform(
        heap,
        &score,
        tables.as_mut_slice(),
        words.as_mut_slice(),
        sides.as_mut_slice(),
        log.as_mut_slice(),
    )
}

// What a script is answered, line by line.
pub fn answer(heap: Global, script: &[u8]) -> Result<String, AllocError>
    ensures { IfOk result (λ s. Answered script.now (string_bytes s)) }
{
    let mut lines = Lines::of(script);
    let mut answers = Vec::new(heap);
    match begin(heap, &mut lines, &mut answers)? {
        SymbolName::Bit => answer_in::<Bit>(heap, lines, answers),
        SymbolName::Word => answer_in::<Word>(heap, lines, answers),
        SymbolName::Cell => answer_in::<Cell>(heap, lines, answers),
        SymbolName::Dated => answer_in::<Dated>(heap, lines, answers),
    }
}
