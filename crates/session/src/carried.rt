// Symbols that packets carry as bytes: cells, and no others.
ghost use Rattle.std.specs.Prelude.{List, Option};
ghost use Rattle.receiver.specs.declared.permit.Permit.{Permit};
ghost use Rattle.receiver.specs.History.{Event, Opened};
ghost use Rattle.receiver.specs.Stands.{Stands};
ghost use Rattle.receiver.specs.View.{model};
ghost use Rattle.session.specs.Carrying.{Carriage, cells, no_cells};
ghost use Rattle.receiver.specs.Holding.{Holding};

use receiver::{Block, Layer, Stamp, Stopped};
use symbols::{Bit, Cell, Dated, Symbol, Word};

pub trait Carried: Symbol {
    // What it does to take packets as bytes, and what it tells.
    ghost carriage: { Carriage Self };

    // Takes a packet; none where the symbols are no cells.
    fn take_packet(
        block: &mut Block<'_, Self>,
        stamp: Stamp,
        bytes: &[u8],
    ) -> Option<Result<(), Layer>>
        ensures does { carriage.packs (model block.old) stamp bytes.now result (model block.new) }
        ensures history { (o : Opened) (h : List (Event Self)) → Stands Self.Symbol.kind o h (model block.old) → Stands Self.Symbol.kind o (carriage.packet stamp bytes.now result h) (model block.new) }
        ensures holding { (q : Option Permit) → Holding (model block.old) q → Holding (model block.new) q };

    // Takes packet after packet; none where the symbols are no cells.
    fn take_run(
        block: &mut Block<'_, Self>,
        stamp: Stamp,
        bytes: &[u8],
    ) -> Option<Result<usize, Stopped>>
        ensures does { carriage.runs (model block.old) stamp bytes.now result (model block.new) }
        ensures history { (o : Opened) (h : List (Event Self)) → Stands Self.Symbol.kind o h (model block.old) → Stands Self.Symbol.kind o (carriage.run stamp bytes.now result h) (model block.new) }
        ensures holding { (q : Option Permit) → Holding (model block.old) q → Holding (model block.new) q };
}

impl Carried for Cell {
    ghost carriage = { cells };

    fn take_packet(
        block: &mut Block<'_, Cell>,
        stamp: Stamp,
        bytes: &[u8],
    ) -> Option<Result<(), Layer>> {
        Some(block.packet(stamp, bytes))
    }

    fn take_run(
        block: &mut Block<'_, Cell>,
        stamp: Stamp,
        bytes: &[u8],
    ) -> Option<Result<usize, Stopped>> {
        Some(block.run(stamp, bytes))
    }
}

// Symbols that are no cells.
pub trait NoCells: Symbol {}

impl NoCells for Bit {}

impl NoCells for Word {}

impl NoCells for Dated {}

impl<S: NoCells> Carried for S {
    ghost carriage = { no_cells };

    fn take_packet(
        block: &mut Block<'_, S>,
        stamp: Stamp,
        bytes: &[u8],
    ) -> Option<Result<(), Layer>> {
        None
    }

    fn take_run(
        block: &mut Block<'_, S>,
        stamp: Stamp,
        bytes: &[u8],
    ) -> Option<Result<usize, Stopped>> {
        None
    }
}
