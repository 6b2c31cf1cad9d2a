// Bytes as text: two lowercase hex digits to a byte, and `-` for no bytes.
ghost use Rattle.std.specs.Prelude.{◌≡◌, ◌*◌, ◌<◌, ◌≤◌, length, take, IfOk, Some, vec_items, string_bytes};
ghost use Rattle.std.specs.Fmt.{WritesOnOk};
ghost use Rattle.std.specs.Option.{option_map};
ghost use Rattle.std.specs.Char.{digit_char};
ghost use Rattle.script.specs.Hex.{digit_value, byte_digits, byte_of, digits_of, pairs_of, mark, hex_of, bytes_of};

use std::alloc::{AllocError, Global};
use std::fmt;
use std::str::from_utf8;

// How many bytes are written at once.
const AT_ONCE: usize = 32;

// The character of a digit.
fn digit(value: u8) -> u8
    requires { value < 16 }
    ensures { result ≡ digit_char value }
{
    if value < 10 {
        b'0' + value
    } else {
        b'a' + (value - 10)
    }
}

// The digits of a few bytes, and zeros behind them.
fn digits(bytes: &[u8]) -> [u8; 64]
    requires { length bytes.now ≤ 32 }
    ensures { take (2 * length bytes.now) result ≡ digits_of bytes.now }
{
    let mut text = [0; 64];
    for (i, byte) in bytes.iter().enumerate() {
        text[2 * i] = digit(*byte / 16);
        text[2 * i + 1] = digit(*byte % 16);
    }
    text
}

// Writes the digits of a few bytes, all at once: written one by one they take twice the time.
fn write_few<W: fmt::Write>(f: &mut fmt::Formatter<W>, bytes: &[u8]) -> fmt::Result
    requires { length bytes.now ≤ 32 }
    ensures { WritesOnOk W.write_str_gives f.old result (digits_of bytes.now) f.new }
{
    let text = digits(bytes);
    let Ok(text) = from_utf8(&text[..2 * bytes.len()]) else {
        unreachable()
    };
    f.write_str(text)
}

// Writes the two digits of a byte.
pub(crate) fn write_byte<W: fmt::Write>(f: &mut fmt::Formatter<W>, byte: u8) -> fmt::Result
    ensures { WritesOnOk W.write_str_gives f.old result (byte_digits byte) f.new }
{
    write_few(f, &[byte])
}

// What stands before the digits: `-` where there are none.
fn mark(bytes: &[u8]) -> &'static str
    ensures { result.now ≡ mark bytes.now }
{
    match bytes {
        [] => "-",
        _ => "",
    }
}

// Bytes that print as their text.
#[derive(Clone, Copy, PartialEq, Eq, Debug)]
pub struct Hex<'a>(pub &'a [u8]);

impl fmt::Display for Hex<'_> {
    ghost output = { λ h. Some (hex_of h.0.now) };

    fn fmt<W: fmt::Write>(&self, f: &mut fmt::Formatter<W>) -> fmt::Result {
        f.write_str(mark(self.0))?;
        for few in self.0.chunks(AT_ONCE) {
            write_few(f, few)?;
        }
        Ok(())
    }
}

// The text of bytes. It reads back as those bytes.
pub fn to_hex(heap: Global, bytes: &[u8]) -> Result<String, AllocError>
    ensures text { IfOk result (λ s. string_bytes s ≡ hex_of bytes.now) }
    ensures back { IfOk result (λ s. bytes_of (string_bytes s) ≡ Some bytes.now) }
{
    format!(in heap; "{}", Hex(bytes))
}

// The value of a digit.
fn value_of(digit: u8) -> Option<u8>
    ensures { result ≡ digit_value digit }
{
    match digit {
        b'0'..=b'9' => Some(digit - b'0'),
        b'a'..=b'f' => Some(digit - b'a' + 10),
        _ => None,
    }
}

// The byte of two digits.
fn read_byte(high: u8, low: u8) -> Option<u8>
    ensures { result ≡ byte_of high low }
{
    Some(value_of(high)? * 16 + value_of(low)?)
}

// The bytes of digits; none where one is no digit, or one is left over, which the pattern tells without an index.
fn read_pairs(heap: Global, digits: &[u8]) -> Result<Option<Vec<u8>>, AllocError>
    ensures { IfOk result (λ o. option_map vec_items o ≡ pairs_of digits.now) }
{
    let mut bytes = Vec::new(heap);
    let mut rest = digits;
    while let [high, low, more @ ..] = rest {
        // `?` of an `Option`, where memory may run out too.
        let Some(byte) = read_byte(*high, *low) else {
            return Ok(None);
        };
        bytes.push(byte)?;
        rest = more;
    }
    Ok(rest.is_empty().then_some(bytes))
}

// The bytes of a text; none where it is no such text.
pub fn from_hex(heap: Global, text: &[u8]) -> Result<Option<Vec<u8>>, AllocError>
    ensures { IfOk result (λ o. option_map vec_items o ≡ bytes_of text.now) }
{
    match text {
        [] => Ok(None),
        [b'-'] => Ok(Some(Vec::new(heap))),
        _ => read_pairs(heap, text),
    }
}
