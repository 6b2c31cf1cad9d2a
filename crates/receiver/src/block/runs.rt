// Packets as bytes, for blocks of cells: alone, and in a run.
ghost use Rattle.std.specs.Prelude.{◌≡◌, [], ◌∷◌};
ghost use Rattle.symbols.specs.Cells.{cell_kind};
ghost use Rattle.receiver.specs.Runs.{PacketStep, packet_event, packets_in, Runs, RunGoesOn};
ghost use Rattle.receiver.specs.Stands.{GoesOn};
ghost use Rattle.receiver.specs.View.{model};

use crate::block::Block;
use crate::fault::Stamp;
use crate::run::{Layer, Stopped};
use packets::{PACKET, read_cell, read_header};
use symbols::Cell;

impl<'a> Block<'a, Cell> {
    // Takes a packet that is handed in as bytes.
    pub fn packet(&mut self, stamp: Stamp, bytes: &[u8]) -> Result<(), Layer>
        ensures lent { self.new.table.ghost_name ≡ self.old.table.ghost_name }
        ensures step { PacketStep (model self.old) stamp bytes.now result (model self.new) }
        ensures history { GoesOn cell_kind (model self.old) (packet_event stamp bytes.now result ∷ []) (model self.new) }
    {
        let (block, number) = read_header(bytes)?;
        let cell = read_cell(bytes)?;
        self.receive(block, stamp, number, Cell::new(cell))?;
        Ok(())
    }

    // Takes packet after packet, 68 bytes each, until the first refusal; answers how many it took.
    pub fn run(&mut self, stamp: Stamp, bytes: &[u8]) -> Result<usize, Stopped>
        ensures lent { self.new.table.ghost_name ≡ self.old.table.ghost_name }
        ensures step { Runs stamp (model self.old) (packets_in bytes.now) 0 0 result (model self.new) }
        ensures history { RunGoesOn stamp (model self.old) (packets_in bytes.now) result (model self.new) }
    {
        for (taken, packet) in bytes.chunks(PACKET).enumerate() {
            let at = taken * PACKET;
            self.packet(stamp, packet)
                .map_err(|fault| Stopped { at, fault })?;
        }
        Ok(bytes.chunks(PACKET).len())
    }
}
