// How a line is read as a call. `let .. else { return Ok(None) }` is `?` of an `Option` where memory may run out too; and
// not by `map`: the borrow checker covers no function whose result names a type that its arguments don't.
ghost use Rattle.std.specs.Prelude.{◌≡◌, IfOk, vec_items};
ghost use Rattle.std.specs.Option.{option_map};
ghost use Rattle.dialogue.specs.Sayings.{saying, which_of, named_of, symbol_name, symbols_by, code_by, row_by, policy_by, memory_by, use_by, open_by, received, receive_by, stamped_by, packet_by, run_by, show_by, close_by, renew_by, alone, apart, said_after, said_by};

use crate::said::{Said, SymbolName};
use crate::spelled::Spelled;
use crate::verb::Verb;
use piles::{read_pile, read_policy, read_row};
use receiver::Stamp;
use script::{from_hex, is_blank, only_word, parse, read_number, split_word};
use session::Which;
use std::alloc::{AllocError, Global};

// 1 · 2
fn which_of(word: &[u8]) -> Option<Which>
    ensures { result ≡ which_of word.now }
{
    match word {
        b"1" => Some(Which::First),
        b"2" => Some(Which::Second),
        _ => None,
    }
}

// [1|2]
fn read_named(line: &[u8]) -> Option<Option<Which>>
    ensures { result ≡ named_of line.now }
{
    if is_blank(line) {
        return Some(None);
    }
    which_of(only_word(line)?).map(Some)
}

// bit · word · cell · dated
fn symbol_name(word: &[u8]) -> Option<SymbolName>
    ensures { result ≡ symbol_name word.now }
{
    match word {
        b"bit" => Some(SymbolName::Bit),
        b"word" => Some(SymbolName::Word),
        b"cell" => Some(SymbolName::Cell),
        b"dated" => Some(SymbolName::Dated),
        _ => None,
    }
}

fn read_symbols<S>(line: &[u8]) -> Option<Said<S>>
    ensures { option_map saying result ≡ symbols_by line.now }
{
    Some(Said::Symbols(symbol_name(only_word(line)?)?))
}

// CODE
fn read_code<S>(heap: Global, line: &[u8]) -> Result<Option<Said<S>>, AllocError>
    ensures { IfOk result (λ o. option_map saying o ≡ code_by line.now) }
{
    let Some(pile) = read_pile(heap, line)? else {
        return Ok(None);
    };
    Ok(Some(Said::Code(pile)))
}

// R
fn read_row_of<S>(line: &[u8]) -> Option<Said<S>>
    ensures { option_map saying result ≡ row_by line.now }
{
    Some(Said::Row(read_row(line)?))
}

// POLICY
fn read_policy_of<S>(line: &[u8]) -> Option<Said<S>>
    ensures { option_map saying result ≡ policy_by line.now }
{
    Some(Said::Policy(read_policy(line)?))
}

// WORDS SYMBOLS
fn read_memory<S>(line: &[u8]) -> Option<Said<S>>
    ensures { option_map saying result ≡ memory_by line.now }
{
    let (words, rest) = split_word(line);
    let symbols = only_word(rest)?;
    Some(Said::Memory {
        words: read_number(words)?,
        symbols: read_number(symbols)?,
    })
}

fn read_use<S>(line: &[u8]) -> Option<Said<S>>
    ensures { option_map saying result ≡ use_by line.now }
{
    Some(Said::Use(which_of(only_word(line)?)?))
}

// BLOCK STAMP N
fn read_open<S>(line: &[u8]) -> Option<Said<S>>
    ensures { option_map saying result ≡ open_by line.now }
{
    let (number, rest) = split_word(line);
    let (stamp, rest) = split_word(rest);
    let places = only_word(rest)?;
    Some(Said::Open {
        number: read_number(number)?,
        stamp: read_number(stamp)?,
        places: read_number(places)?,
    })
}

// A call of what its words gave.
fn received<S: Drop>(
    number: Option<u32>,
    stamp: Option<Stamp>,
    place: Option<u32>,
    symbol: Option<S>,
) -> Option<Said<S>>
    ensures { option_map saying result ≡ received number stamp place symbol }
{
    Some(Said::Receive {
        number: number?,
        stamp: stamp?,
        place: place?,
        symbol: symbol?,
    })
}

// BLOCK STAMP NUMBER SYMBOL
fn read_receive<S: Spelled>(heap: Global, line: &[u8]) -> Result<Option<Said<S>>, AllocError>
    ensures { IfOk result (λ o. option_map saying o ≡ receive_by S.Spelled.spelling line.now) }
{
    let (number, rest) = split_word(line);
    let (stamp, rest) = split_word(rest);
    let (place, rest) = split_word(rest);
    let Some(word) = only_word(rest) else {
        return Ok(None);
    };
    let symbol = S::read(heap, word)?;
    Ok(received(
        read_number(number),
        read_number(stamp),
        read_number(place),
        symbol,
    ))
}

// STAMP HEX
fn read_stamped(heap: Global, line: &[u8]) -> Result<Option<(Stamp, Vec<u8>)>, AllocError>
    ensures { IfOk result (λ o. option_map (λ p. (p.0, vec_items p.1)) o ≡ stamped_by line.now) }
{
    let (stamp, rest) = split_word(line);
    let (Some(stamp), Some(hex)) = (read_number(stamp), only_word(rest)) else {
        return Ok(None);
    };
    Ok(from_hex(heap, hex)?.map(|bytes| (stamp, bytes)))
}

// STAMP HEX
fn read_packet<S>(heap: Global, line: &[u8]) -> Result<Option<Said<S>>, AllocError>
    ensures { IfOk result (λ o. option_map saying o ≡ packet_by line.now) }
{
    let Some((stamp, bytes)) = read_stamped(heap, line)? else {
        return Ok(None);
    };
    Ok(Some(Said::Packet { stamp, bytes }))
}

// STAMP HEX
fn read_run<S>(heap: Global, line: &[u8]) -> Result<Option<Said<S>>, AllocError>
    ensures { IfOk result (λ o. option_map saying o ≡ run_by line.now) }
{
    let Some((stamp, bytes)) = read_stamped(heap, line)? else {
        return Ok(None);
    };
    Ok(Some(Said::Run { stamp, bytes }))
}

// NUMBER [1|2]
fn read_show<S>(line: &[u8]) -> Option<Said<S>>
    ensures { option_map saying result ≡ show_by line.now }
{
    let (place, rest) = split_word(line);
    Some(Said::Show {
        place: read_number(place)?,
        named: read_named(rest)?,
    })
}

// [1|2]
fn read_close<S>(line: &[u8]) -> Option<Said<S>>
    ensures { option_map saying result ≡ close_by line.now }
{
    Some(Said::Close {
        named: read_named(line)?,
    })
}

// STAMP
fn read_renew<S>(line: &[u8]) -> Option<Said<S>>
    ensures { option_map saying result ≡ renew_by line.now }
{
    Some(Said::Renew {
        stamp: read_number(only_word(line)?)?,
    })
}

// A call that takes no words.
fn alone<S: Drop>(line: &[u8], said: Said<S>) -> Option<Said<S>>
    ensures { option_map saying result ≡ alone line.now (saying said) }
{
    is_blank(line).then_some(said)
}

// A call that wants neither a block nor a code.
fn read_apart<S>(heap: Global, line: &[u8]) -> Result<Option<Said<S>>, AllocError>
    ensures { IfOk result (λ o. option_map saying o ≡ apart line.now) }
{
    let Some(call) = parse(heap, line)? else {
        return Ok(None);
    };
    Ok(Some(Said::Apart(call)))
}

// What the line behind a call's word says.
fn read_after<S: Spelled>(
    heap: Global,
    verb: Verb,
    line: &[u8],
) -> Result<Option<Said<S>>, AllocError>
    ensures { IfOk result (λ o. option_map saying o ≡ said_after S.Spelled.spelling verb line.now) }
{
    Ok(match verb {
        Verb::Symbols => read_symbols(line),
        Verb::Code => read_code(heap, line)?,
        Verb::Row => read_row_of(line),
        Verb::Policy => read_policy_of(line),
        Verb::Memory => read_memory(line),
        Verb::Use => read_use(line),
        Verb::Open => read_open(line),
        Verb::Receive => read_receive(heap, line)?,
        Verb::Packet => read_packet(heap, line)?,
        Verb::Run => read_run(heap, line)?,
        Verb::Solve => alone(line, Said::Solve),
        Verb::Show => read_show(line),
        Verb::Close => read_close(line),
        Verb::Renew => read_renew(line),
        Verb::Figure => alone(line, Said::Figure),
        Verb::Grid => alone(line, Said::Grid),
    })
}

// What a line says; none where it is not understood.
pub(crate) fn read_said<S: Spelled>(
    heap: Global,
    line: &[u8],
) -> Result<Option<Said<S>>, AllocError>
    ensures { IfOk result (λ o. option_map saying o ≡ said_by S.Spelled.spelling line.now) }
{
    let (word, rest) = split_word(line);
    match Verb::of(word) {
        Some(Verb::Figure) if !is_blank(rest) => read_apart(heap, line),
        Some(verb) => read_after(heap, verb, rest),
        None => read_apart(heap, line),
    }
}
