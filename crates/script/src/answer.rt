// What a call answers, and the line that tells it.
ghost use Rattle.std.specs.Prelude.{◌≡◌, ◌++◌, Some, IfOk, string_bytes};
ghost use Rattle.std.specs.Fmt.{WritesOnOk};
ghost use Rattle.packets.specs.Faults.{meaning, answered};
ghost use Rattle.script.specs.Calls.{asked};
ghost use Rattle.script.specs.Answers.{said, reply, write_reply, refused_text, text};

use crate::call::Call;
use crate::hex::Hex;
use packets::{CELL, HeaderFault, PACKET, read_header, reception_figure, write_packet};
use refusals::Numbered;
use std::alloc::{AllocError, Global};
use std::fmt;

#[derive(Clone, Copy, PartialEq, Eq, Debug)]
pub enum Answer {
    // A block number and a packet number.
    Read(Result<(u32, u32), HeaderFault>),
    // A packet.
    Write(Result<[u8; PACKET], HeaderFault>),
    // Whole percent.
    Figure(u64),
}

// The longest slice that is made for a packet, on the stack, since performing a call is handed no allocator. Any longer one
// is refused for its length alike.
const LONGEST: usize = 1024;

// Writes a packet into a slice of this length.
fn answer_write(
    block: u32,
    number: u32,
    cell: &[u8; CELL],
    length: usize,
) -> Result<[u8; PACKET], HeaderFault>
    ensures { answered result ≡ write_reply block number cell.now length }
{
    if length > LONGEST {
        return Err(HeaderFault::Length(length));
    }
    let mut bytes = [0; LONGEST];
    let slice = &mut bytes[0..length];
    write_packet(slice, block, number, cell)?;
    let mut packet = [0; PACKET];
    packet.copy_from_slice(slice);
    Ok(packet)
}

// What a call answers.
pub fn perform(call: &Call) -> Answer
    ensures { said result ≡ reply (asked call.now) }
{
    match call {
        Call::Read(bytes) => Answer::Read(read_header(bytes.as_slice())),
        Call::Write {
            block,
            number,
            cell,
            length,
        } => Answer::Write(answer_write(*block, *number, cell, *length)),
        Call::Figure { received, n } => Answer::Figure(reception_figure(*received, *n)),
    }
}

// Writes the line that tells a refusal of the call of this word.
fn write_refusal<W: fmt::Write>(
    f: &mut fmt::Formatter<W>,
    word: &str,
    fault: HeaderFault,
) -> fmt::Result
    ensures { WritesOnOk W.write_str_gives f.old result (word.now ++ refused_text (meaning fault)) f.new }
{
    write!(f, "{word} refused {} {}", fault.number(), fault.value())
}

// The line that tells an answer.
impl fmt::Display for Answer {
    ghost output = { λ a. Some (text (said a)) };

    fn fmt<W: fmt::Write>(&self, f: &mut fmt::Formatter<W>) -> fmt::Result {
        match self {
            Answer::Read(Ok((block, number))) => write!(f, "read granted {block} {number}"),
            Answer::Read(Err(fault)) => write_refusal(f, "read", *fault),
            Answer::Write(Ok(packet)) => write!(f, "write granted {}", Hex(packet)),
            Answer::Write(Err(fault)) => write_refusal(f, "write", *fault),
            Answer::Figure(percent) => write!(f, "figure {percent}"),
        }
    }
}

// The line that tells an answer, as a text of its own.
pub fn print(heap: Global, answer: &Answer) -> Result<String, AllocError>
    ensures { IfOk result (λ s. string_bytes s ≡ text (said answer.now)) }
{
    format!(in heap; "{answer}")
}
