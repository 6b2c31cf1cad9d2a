// A call that brings all three: what was heard of n bytes whose sum is zero, and the byte at a place asked for.
ghost use Rattle.std.specs.Prelude.{◌≡◌, ◌≤◌, ◌↔◌, [], length, Some};
ghost use Rattle.receiver.specs.Stands.{Stands, opening};
ghost use Rattle.receiver.specs.View.{model};
ghost use Rattle.guests.specs.Bytes.{byte_kind};
ghost use Rattle.guests.specs.Hearing.{Heard};
ghost use Rattle.guests.specs.Restoring.{Settles, sum_heard, OnlyLost};
ghost use Rattle.guests.specs.declared.byte.Byte.{Byte};

use crate::byte::Byte;
use crate::last::Last;
use crate::parity::Parity;
use codes::MAX_COLUMNS;
use receiver::{Block, Stamp};

// The block's number and stamp: any would do, since it is opened and closed in one call.
const NUMBER: u32 = 0;

const STAMP: Stamp = 1;

// Hands each byte that was heard to the block.
fn hear(block: &mut Block<'_, Byte>, heard: &[Option<Byte>])
    requires few { length heard.now ≤ 512 }
    requires fresh { Stands byte_kind (opening 0 1 (length heard.now)) [] (model block.old) }
    ensures { Heard heard.now (length heard.now) (model block.new) }
{
    for (place, byte) in heard.iter().enumerate() {
        if let Some(byte) = byte {
            match block.receive(NUMBER, STAMP, place as u32, *byte) {
                Ok(()) => {}
                Err(_fault) => unreachable(),
            }
        }
    }
}

// The byte at a place, where what was heard settles it: heard has a place for each of the n bytes, none where a byte is lost.
pub fn restored(heard: &[Option<Byte>], place: u32) -> Option<Byte>
    ensures settled { (x : Byte) → (result ≡ Some x) ↔ Settles heard.now place x }
    ensures lost { OnlyLost heard.now place → result ≡ Some (sum_heard heard.now) }
{
    let code = Parity::new(heard.len())?;
    let mut table = [Byte { value: 0 }; MAX_COLUMNS];
    let mut block = Block::open(NUMBER, STAMP, &mut table[..heard.len()]);
    hear(&mut block, heard);
    let mut words = [0; 8];
    let mut sides = [Byte { value: 0 }];
    let permit = block.solve(&code, &mut Last, &mut words, &mut sides).ok()?;
    let shown = block.shown(&permit, place);
    match block.close(permit) {
        Ok(()) => shown.ok(),
        Err(_kept) => unreachable(),
    }
}
