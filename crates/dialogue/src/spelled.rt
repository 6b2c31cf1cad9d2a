// How the symbols of a script are written.
ghost use Rattle.std.specs.Prelude.{◌≡◌, IfOk};
ghost use Rattle.std.specs.Fmt.{WritesOnOk};
ghost use Rattle.dialogue.specs.Symbols.{Spelling, bits, words, cells, dated, word_from, word_of, cell_of_word, trimmed};

use script::{Escaped, Hex, from_hex, read_cell, split_at_byte};
use session::Carried;
use std::alloc::{AllocError, Global};
use std::fmt;
use symbols::{Bit, Cell, Dated, Pair, Word};

pub(crate) trait Spelled: Carried {
    ghost spelling: { Spelling Self };

    // The symbol that a word writes; none where it writes none.
    fn read(heap: Global, word: &[u8]) -> Result<Option<Self>, AllocError>
        ensures { IfOk result (λ o. o ≡ spelling.read word.now) };

    // Writes it as a script does.
    fn write<W: fmt::Write>(&self, f: &mut fmt::Formatter<W>) -> fmt::Result
        ensures { WritesOnOk W.write_str_gives f.old result (spelling.text self.now) f.new };

    // Writes it for people.
    fn write_plainly<W: fmt::Write>(&self, f: &mut fmt::Formatter<W>) -> fmt::Result
        ensures { WritesOnOk W.write_str_gives f.old result (spelling.plain self.now) f.new };
}

// A bit is 0 or 1.
impl Spelled for Bit {
    ghost spelling = { bits };

    fn read(_heap: Global, word: &[u8]) -> Result<Option<Bit>, AllocError> {
        Ok(match word {
            b"0" => Some(Bit::Zero),
            b"1" => Some(Bit::One),
            _ => None,
        })
    }

    fn write<W: fmt::Write>(&self, f: &mut fmt::Formatter<W>) -> fmt::Result {
        match self {
            Bit::Zero => f.write_str("0"),
            Bit::One => f.write_str("1"),
        }
    }

    fn write_plainly<W: fmt::Write>(&self, f: &mut fmt::Formatter<W>) -> fmt::Result {
        self.write(f)
    }
}

// The word of four bytes.
fn word_from(bytes: &[u8]) -> Option<Word>
    ensures { result ≡ word_from bytes.now }
{
    let [a, b, c, d] = bytes else {
        return None;
    };
    Some(Word {
        value: u32::from_be_bytes([*a, *b, *c, *d]),
    })
}

// A word is eight hex digits.
impl Spelled for Word {
    ghost spelling = { words };

    fn read(heap: Global, word: &[u8]) -> Result<Option<Word>, AllocError> {
        Ok(from_hex(heap, word)?.and_then(|bytes| word_from(bytes.as_slice())))
    }

    fn write<W: fmt::Write>(&self, f: &mut fmt::Formatter<W>) -> fmt::Result {
        write!(f, "{}", Hex(&self.value.to_be_bytes()))
    }

    fn write_plainly<W: fmt::Write>(&self, f: &mut fmt::Formatter<W>) -> fmt::Result {
        self.write(f)
    }
}

// Bytes without the zeros at their end.
fn trimmed(bytes: &[u8]) -> &[u8]
    ensures { result.now ≡ trimmed bytes.now }
{
    let mut rest = bytes;
    while let [front @ .., last] = rest {
        if *last != 0 {
            break;
        }
        rest = front;
    }
    rest
}

// A cell is 128 hex digits; for people, its bytes as text.
impl Spelled for Cell {
    ghost spelling = { cells };

    fn read(heap: Global, word: &[u8]) -> Result<Option<Cell>, AllocError> {
        Ok(read_cell(heap, word)?.map(Cell::new))
    }

    fn write<W: fmt::Write>(&self, f: &mut fmt::Formatter<W>) -> fmt::Result {
        write!(f, "{}", Hex(&self.bytes))
    }

    fn write_plainly<W: fmt::Write>(&self, f: &mut fmt::Formatter<W>) -> fmt::Result {
        write!(f, "{}", Escaped(trimmed(&self.bytes)))
    }
}

// A dated cell is a cell and a word joined by a colon.
impl Spelled for Dated {
    ghost spelling = { dated };

    fn read(heap: Global, word: &[u8]) -> Result<Option<Dated>, AllocError> {
        let Some((cell, time)) = split_at_byte(word, b':') else {
            return Ok(None);
        };
        let (Some(first), Some(second)) = (Cell::read(heap, cell)?, Word::read(heap, time)?) else {
            return Ok(None);
        };
        Ok(Some(Pair { first, second }))
    }

    fn write<W: fmt::Write>(&self, f: &mut fmt::Formatter<W>) -> fmt::Result {
        self.first.write(f)?;
        f.write_str(":")?;
        self.second.write(f)
    }

    fn write_plainly<W: fmt::Write>(&self, f: &mut fmt::Formatter<W>) -> fmt::Result {
        self.first.write_plainly(f)?;
        f.write_str(" ")?;
        self.second.write(f)
    }
}
