// A packet of 68 bytes: a header of four bytes, and a cell.
ghost use Rattle.std.specs.Prelude.{◌≡◌, length, is_ok, IfOk, if◌then◌else◌, OnOk};
ghost use Rattle.packets.specs.Faults.{answered};
ghost use Rattle.packets.specs.Packets.{read_header, read_cell, write_packet, packet};
ghost use Rattle.packets.specs.Laws.{Pair, Rewrites, Reads};

use crate::fault::HeaderFault;

// The bytes of a header, of a cell and of a packet.
pub const HEADER: usize = 4;

pub const CELL: usize = 64;

pub const PACKET: usize = 68;

// The block numbers that 12 bits hold, and the packet numbers that 20 bits hold.
const BLOCKS: u32 = 4096;

const NUMBERS: u32 = 1048576;

// The block number and the packet number of a packet, from its first four bytes.
pub fn read_header(bytes: &[u8]) -> Result<(u32, u32), HeaderFault>
    ensures answer { answered result ≡ read_header bytes.now }
    ensures law { IfOk result (λ pair. Rewrites bytes.now pair.0 pair.1) }
{
    match bytes {
        [a, b, c, d, rest @ ..] if rest.len() == CELL => {
            let word = u32::from_be_bytes([*a, *b, *c, *d]);
            Ok((word / NUMBERS, word % NUMBERS))
        }
        _ => Err(HeaderFault::Length(bytes.len())),
    }
}

// The 64 bytes behind the header of a packet.
pub fn read_cell(bytes: &[u8]) -> Result<[u8; CELL], HeaderFault>
    ensures { answered result ≡ read_cell bytes.now }
{
    // Not by `and_then`, `ok` and `ok_or`: through them the cell is copied each time, which took over ten times as long.
    let Some(cell) = bytes.get(HEADER..) else {
        return Err(HeaderFault::Length(bytes.len()));
    };
    let Ok(cell) = cell.try_into() else {
        return Err(HeaderFault::Length(bytes.len()));
    };
    Ok(cell)
}

// Writes a packet over all of the caller's 68 bytes; refused, it leaves them as they are.
pub fn write_packet(
    bytes: &mut [u8],
    block: u32,
    number: u32,
    cell: &[u8; CELL],
) -> Result<(), HeaderFault>
    ensures answer { answered result ≡ write_packet (length bytes.old) block number }
    ensures after { bytes.new ≡ (if is_ok result then packet block number cell.now else bytes.old) }
    ensures law { OnOk result (Reads bytes.new block number cell.now) }
{
    if bytes.len() != PACKET {
        return Err(HeaderFault::Length(bytes.len()));
    }
    if block >= BLOCKS {
        return Err(HeaderFault::Block(block));
    }
    if number >= NUMBERS {
        return Err(HeaderFault::Number(number));
    }
    bytes.copy_from_slice(&packed(block, number, cell));
    Ok(())
}

// The bytes of a packet.
fn packed(block: u32, number: u32, cell: &[u8; CELL]) -> [u8; PACKET]
    requires { Pair block number }
    ensures value { result ≡ packet block number cell.now }
    ensures law { Reads result block number cell.now }
{
    let mut bytes = [0; PACKET];
    bytes[..HEADER].copy_from_slice(&(block * NUMBERS + number).to_be_bytes());
    bytes[HEADER..].copy_from_slice(cell);
    bytes
}
