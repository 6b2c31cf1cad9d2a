// Bytes and lines that print as text, and the answer to a line that is no call.
ghost use Rattle.std.specs.Prelude.{◌≡◌, take, Some, IfOk, string_bytes};
ghost use Rattle.std.specs.Fmt.{WritesOnOk};
ghost use Rattle.script.specs.Lines.{plain, escaped, all_escaped, dots, shown, not_understood};

use crate::hex::write_byte;
use std::alloc::{AllocError, Global};
use std::fmt;

// How much of a line is shown.
const SHOWN: usize = 60;

// Whether a byte is shown as it is.
fn is_plain(byte: u8) -> bool
    ensures { result ≡ plain byte }
{
    matches!(byte, b' '..=b'~') && byte != b'\\'
}

// Writes a byte that may be no text.
fn write_shown<W: fmt::Write>(f: &mut fmt::Formatter<W>, byte: u8) -> fmt::Result
    ensures { WritesOnOk W.write_str_gives f.old result (escaped byte) f.new }
{
    if is_plain(byte) {
        return f.write_char(char::from(byte));
    }
    f.write_str("\\x")?;
    write_byte(f, byte)
}

// The front of a line, and dots where there is more.
fn cut(line: &[u8]) -> (&[u8], &'static str)
    ensures front { result.0.now ≡ take 60 line.now }
    ensures dots { result.1.now ≡ dots line.now }
{
    if line.len() <= SHOWN {
        return (line, "");
    }
    let (front, _) = line.split_at(SHOWN);
    (front, "...")
}

// Bytes that print as text, whatever they are.
#[derive(Clone, Copy, PartialEq, Eq, Debug)]
pub struct Escaped<'a>(pub &'a [u8]);

impl fmt::Display for Escaped<'_> {
    ghost output = { λ e. Some (all_escaped e.0.now) };

    fn fmt<W: fmt::Write>(&self, f: &mut fmt::Formatter<W>) -> fmt::Result {
        for byte in self.0 {
            write_shown(f, *byte)?;
        }
        Ok(())
    }
}

// A line that prints as text: no more than its front.
#[derive(Clone, Copy)]
struct Shown<'a>(&'a [u8]);

impl fmt::Display for Shown<'_> {
    ghost output = { λ l. Some (shown l.0.now) };

    fn fmt<W: fmt::Write>(&self, f: &mut fmt::Formatter<W>) -> fmt::Result {
        let (front, dots) = cut(self.0);
        write!(f, "{}{dots}", Escaped(front))
    }
}

// The answer to a line that is no call.
pub fn refuse_line(heap: Global, k: u64, line: &[u8]) -> Result<String, AllocError>
    ensures { IfOk result (λ s. string_bytes s ≡ not_understood k line.now) }
{
    format!(in heap; "line {k}: not understood: {}", Shown(line))
}
