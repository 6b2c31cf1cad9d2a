// The calls of the script language, and how a line is read as one. `let .. else { return Ok(None) }` is `?` of an `Option` where memory may run out too.
ghost use Rattle.std.specs.Prelude.{◌≡◌, IfOk, Some};
ghost use Rattle.std.specs.Option.{option_map};
ghost use Rattle.std.specs.Str.{bytes_eq};
ghost use Rattle.script.specs.Calls.{asked, sized, write_asked, cell_word, length_word, read_call, write_call, figure_call, understood};

use crate::hex::from_hex;
use crate::number::read_number;
use crate::word::{is_blank, only_word, split_word};
use packets::CELL;
use std::alloc::{AllocError, Global};

#[derive(Drop, PartialEq, Eq, Debug)]
pub enum Call {
    // Reads the header of these bytes.
    Read(Vec<u8>),
    // Writes a packet into a slice of this length.
    Write {
        block: u32,
        number: u32,
        cell: [u8; CELL],
        length: usize,
    },
    // Works out the reception figure.
    Figure {
        received: u32,
        n: u32,
    },
}

// Whether a word is this text.
pub fn is_word(word: &[u8], text: &str) -> bool
    ensures { result ≡ bytes_eq word.now text.now }
{
    word == text.as_bytes()
}

// read HEX
fn parse_read(heap: Global, line: &[u8]) -> Result<Option<Call>, AllocError>
    ensures { IfOk result (λ o. option_map asked o ≡ read_call line.now) }
{
    let Some(hex) = only_word(line) else {
        return Ok(None);
    };
    Ok(from_hex(heap, hex)?.map(Call::Read))
}

// The cell of a word: 128 hex digits.
pub fn read_cell(heap: Global, word: &[u8]) -> Result<Option<[u8; CELL]>, AllocError>
    ensures { IfOk result (λ o. o ≡ cell_word word.now) }
{
    Ok(from_hex(heap, word)?.and_then(|bytes| sized(bytes.as_slice())))
}

// Bytes as a cell, where they are 64.
fn sized(bytes: &[u8]) -> Option<[u8; CELL]>
    ensures { result ≡ sized (Some bytes.now) }
{
    bytes.try_into().ok()
}

// The length behind the cell, where there is one.
fn parse_length(line: &[u8]) -> Option<u32>
    ensures { result ≡ length_word line.now }
{
    if is_blank(line) {
        return Some(68);
    }
    read_number(only_word(line)?)
}

// A call of what its words gave.
fn write_call(
    block: Option<u32>,
    number: Option<u32>,
    cell: Option<[u8; CELL]>,
    length: Option<u32>,
) -> Option<Call>
    ensures { option_map asked result ≡ write_asked block number cell length }
{
    Some(Call::Write {
        block: block?,
        number: number?,
        cell: cell?,
        length: length? as usize,
    })
}

// write BLOCK NUMBER HEXCELL [LENGTH]
fn parse_write(heap: Global, line: &[u8]) -> Result<Option<Call>, AllocError>
    ensures { IfOk result (λ o. option_map asked o ≡ write_call line.now) }
{
    let (block, rest) = split_word(line);
    let (number, rest) = split_word(rest);
    let (cell, rest) = split_word(rest);
    let cell = read_cell(heap, cell)?;
    Ok(write_call(
        read_number(block),
        read_number(number),
        cell,
        parse_length(rest),
    ))
}

// figure RECEIVED N
fn parse_figure(line: &[u8]) -> Option<Call>
    ensures { option_map asked result ≡ figure_call line.now }
{
    let (received, rest) = split_word(line);
    let n = only_word(rest)?;
    Some(Call::Figure {
        received: read_number(received)?,
        n: read_number(n)?,
    })
}

// The call of a line; none where the line is not understood.
pub fn parse(heap: Global, line: &[u8]) -> Result<Option<Call>, AllocError>
    ensures { IfOk result (λ o. option_map asked o ≡ understood line.now) }
{
    match split_word(line) {
        (b"read", rest) => parse_read(heap, rest),
        (b"write", rest) => parse_write(heap, rest),
        (b"figure", rest) => Ok(parse_figure(rest)),
        _ => Ok(None),
    }
}
