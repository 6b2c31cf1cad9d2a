// Every refusal in its order, the edges of packets, places and stamps, and what a permit shows and leaves.
use crate::block::Block;
use crate::fault::{Fault, Stamp, Unsolved};
use crate::permit::{Permit, Unclosed};
use crate::run::{Layer, Stopped};
use codes::{Listed, Record};
use policies::First;
use refusals::Numbered;
use search::Report;
use std::test::Fail;
use symbols::{Cell, Word};

// The number and the value of a refusal; both are 0 where the call is granted.
type Told = (u8, u64);

const GRANTED: Told = (0, 0);

fn refused<F: Numbered>(fault: &F) -> Told {
    (fault.number(), fault.value())
}

fn told(answer: Result<(), Fault>) -> Told {
    match answer {
        Ok(()) => GRANTED,
        Err(fault) => refused(&fault),
    }
}

fn told_layer(layer: Layer) -> Told {
    match layer {
        Layer::Header(fault) => refused(&fault),
        Layer::Block(fault) => refused(&fault),
    }
}

fn told_packet(answer: Result<(), Layer>) -> Told {
    match answer {
        Ok(()) => GRANTED,
        Err(layer) => told_layer(layer),
    }
}

// Of a run: the packets taken, or the byte place where it stopped, with the refusal.
fn told_run(answer: Result<usize, Stopped>) -> (usize, u8, u64) {
    match answer {
        Ok(taken) => (taken, 0, 0),
        Err(stopped) => {
            let (number, value) = told_layer(stopped.fault);
            (stopped.at, number, value)
        }
    }
}

// Of a solve, whose permit is spent.
fn told_solve(answer: Result<Permit, Unsolved>) -> Told {
    match answer {
        Ok(permit) => {
            permit.spend();
            GRANTED
        }
        Err(Unsolved::Refused(fault)) => refused(&fault),
        Err(Unsolved::NoCodeword(_)) => (13, 0),
        Err(Unsolved::Several(_, shortfall)) => (14, shortfall as u64),
    }
}

// Of a close; a permit given back is spent.
fn told_close(answer: Result<(), Unclosed>) -> Told {
    match answer {
        Ok(()) => GRANTED,
        Err(Unclosed { stamp, permit }) => {
            permit.spend();
            (15, stamp as u64)
        }
    }
}

fn word(value: u32) -> Word {
    Word { value }
}

fn one(row: u16, column: u16) -> Record {
    Record { row, column }
}

// Three rows over seven columns.
fn rows() -> [Record; 12] {
    [
        one(0, 0),
        one(0, 2),
        one(0, 4),
        one(0, 6),
        one(1, 1),
        one(1, 2),
        one(1, 5),
        one(1, 6),
        one(2, 3),
        one(2, 4),
        one(2, 5),
        one(2, 6),
    ]
}

fn opened(number: u32, stamp: Stamp, places: &mut [Word]) -> Option<Told> {
    Block::open(number, stamp, places).refusal()
}

#[test]
fn opens_are_refused_in_order(rt: HostRuntime) {
    let mut many = [word(1); 513];
    let mut most = [word(1); 512];
    assert_eq!(rt; opened(4096, 0, &mut many), Some((2, 4096)));
    assert_eq!(rt; opened(4095, 0, &mut many), Some((3, 0)));
    assert_eq!(rt; opened(4095, 1, &mut many), Some((4, 513)));
    assert_eq!(rt; opened(4095, 1, &mut []), Some((4, 0)));
    assert_eq!(rt; opened(4095, 1, &mut most), None);
}

#[test]
fn packets_are_refused_in_order(rt: HostRuntime) {
    let mut table = [word(1); 7];
    let mut block = Block::open(5, 9, &mut table);
    assert_eq!(rt; told(block.receive(6, 8, 7, word(2))), (7, 6));
    assert_eq!(rt; told(block.receive(5, 8, 7, word(2))), (8, 9));
    assert_eq!(rt; told(block.receive(5, 9, 7, word(2))), (9, 7));
    assert_eq!(rt; told(block.receive(5, 9, 6, word(2))), GRANTED);
    assert_eq!(rt; told(block.receive(5, 9, 6, word(3))), (10, 6));
    assert_eq!(rt; block.figure(), 14);
    assert_eq!(rt; told(block.renew(0)), (3, 0));
    assert_eq!(rt; told(block.renew(9)), (11, 9));
    assert_eq!(rt; told(block.renew(10)), GRANTED);
    assert_eq!(rt; block.figure(), 0);
    assert_eq!(rt; table[6].value, 0);
}

#[test]
fn a_refused_block_has_no_place(rt: HostRuntime) {
    let mut table = [word(1); 7];
    let mut block = Block::open(5, 0, &mut table);
    assert_eq!(rt; block.refusal(), Some((3, 0)));
    assert_eq!(rt; told(block.receive(5, 0, 0, word(2))), (7, 5));
    assert_eq!(rt; told(block.receive(0, 1, 0, word(2))), (8, 0));
    assert_eq!(rt; told(block.receive(0, 0, 0, word(2))), (9, 0));
    assert_eq!(rt; told_solve(solve(&mut block, &Listed::smallest())), (5, 1));
    assert_eq!(rt; under_forged(&mut block, 0, 0), (((15, 0), 1), (15, 0)));
    assert_eq!(rt; told(block.renew(0)), (3, 0));
    assert_eq!(rt; told(block.renew(1)), GRANTED);
    assert_eq!(rt; told(block.receive(0, 1, 0, word(2))), (9, 0));
    assert_eq!(rt; block.figure(), 0);
    assert_eq!(rt; table[0].value, 1);
}

#[test]
fn a_packet_has_68_bytes(rt: HostRuntime) {
    let mut bytes = [0; 68];
    bytes[1] = 0x50;
    bytes[3] = 6;
    let mut table = [Cell::new([9; 64]); 7];
    let mut block = Block::open(5, 9, &mut table);
    assert_eq!(rt; told_packet(block.packet(9, &[0; 67])), (1, 67));
    assert_eq!(rt; told_packet(block.packet(9, &[0; 69])), (1, 69));
    assert_eq!(rt; told_packet(block.packet(9, &bytes)), GRANTED);
    assert_eq!(rt; told_packet(block.packet(9, &bytes)), (10, 6));
}

#[test]
fn runs_stop_at_a_byte_place(rt: HostRuntime) {
    let mut bytes = [0; 137];
    bytes[1] = 0x50;
    bytes[3] = 6;
    bytes[69] = 0x50;
    let mut table = [Cell::new([9; 64]); 7];
    let mut block = Block::open(5, 9, &mut table);
    assert_eq!(rt; told_run(block.run(9, &[])), (0, 0, 0));
    assert_eq!(rt; told_run(block.run(9, &bytes)), (136, 1, 1));
    assert_eq!(rt; told_run(block.run(9, &bytes)), (0, 10, 6));
    assert_eq!(rt; block.figure(), 28);
}

fn solve(block: &mut Block<'_, Word>, code: &Listed<'_>) -> Result<Permit, Unsolved> {
    block.solve(code, &mut First, &mut [0; 24], &mut [word(0); 3])
}

// Four packets of the codeword 23, 27, 3, 29, 5, 9, 17, which settle the others.
fn hear(block: &mut Block<'_, Word>, stamp: Stamp) -> (Told, Told, Told, Told) {
    (
        told(block.receive(5, stamp, 2, word(3))),
        told(block.receive(5, stamp, 4, word(5))),
        told(block.receive(5, stamp, 5, word(9))),
        told(block.receive(5, stamp, 6, word(17))),
    )
}

// What is shown, with the answer.
fn shown(block: &Block<'_, Word>, permit: &Permit, place: u32) -> (Told, u32) {
    let mut symbol = word(1);
    let answer = told(block.show(permit, place, &mut symbol));
    (answer, symbol.value)
}

// The calls that a permit refuses, solve by its first cause.
fn refused_while_out(block: &mut Block<'_, Word>) -> (Told, Told, Told) {
    (
        told(block.receive(6, 8, 7, word(2))),
        told_solve(solve(block, &Listed::smallest())),
        told(block.renew(0)),
    )
}

// A show past the end and a close under a permit that no solve gave.
fn under_forged(block: &mut Block<'_, Word>, number: u32, stamp: Stamp) -> ((Told, u32), Told) {
    let report = Report {
        pivots: 0,
        additions: 0,
    };
    let permit = Permit::new(number, stamp, report);
    (shown(block, &permit, 7), told_close(block.close(permit)))
}

#[test]
fn a_permit_shows_and_refuses(rt: HostRuntime) -> Result<(), Fail> {
    let records = rows();
    let mut code = Listed::smallest();
    code.make(3, 7, &records)?;
    let mut table = [word(1); 7];
    let mut block = Block::open(5, 9, &mut table);
    let _ = hear(&mut block, 9);
    match solve(&mut block, &code) {
        Ok(permit) => {
            let first = shown(&block, &permit, 0);
            let past = shown(&block, &permit, 7);
            let refused = refused_while_out(&mut block);
            let other = under_forged(&mut block, 5, 8);
            let closed = told_close(block.close(permit));
            let late = under_forged(&mut block, 5, 9);
            assert_eq!(rt; first, (GRANTED, 23));
            assert_eq!(rt; past, ((9, 7), 1));
            assert_eq!(rt; refused, ((6, 9), (6, 9), (6, 9)));
            assert_eq!(rt; other, (((15, 9), 1), (15, 9)));
            assert_eq!(rt; closed, GRANTED);
            assert_eq!(rt; late, (((15, 9), 1), (15, 9)));
            assert_eq!(rt; (table[0].value, table[6].value), (0, 17));
            Ok(())
        }
        Err(e) => {
            assert_eq!(rt; told_solve(Err(e)), GRANTED);
            Ok(())
        },
    }
}

#[test]
fn a_solve_refused_leaves_no_guess(rt: HostRuntime) -> Result<(), Fail> {
    let records = rows();
    let mut code = Listed::smallest();
    code.make(3, 7, &records)?;
    let mut table = [word(1); 7];
    let mut block = Block::open(5, 9, &mut table);
    let narrow = block.solve(&Listed::smallest(), &mut First, &mut [], &mut []);
    assert_eq!(rt; told_solve(narrow), (5, 1));
    let short = block.solve(&code, &mut First, &mut [0; 23], &mut [word(0); 3]);
    assert_eq!(rt; told_solve(short), (12, 3));
    assert_eq!(rt; told(block.receive(5, 9, 2, word(3))), GRANTED);
    assert_eq!(rt; told_solve(solve(&mut block, &code)), (14, 3));
    assert_eq!(rt; (table[0].value, table[2].value), (0, 3));
    Ok(())
}

// A day under a stamp: what it shows of a missing place, or why it was not solved, and how it closes.
fn day(block: &mut Block<'_, Word>, code: &Listed<'_>, stamp: Stamp) -> ((Told, u32), Told) {
    let _ = hear(block, stamp);
    match solve(block, code) {
        Ok(permit) => (shown(block, &permit, 3), told_close(block.close(permit))),
        Err(e) => ((told_solve(Err(e)), 0), GRANTED),
    }
}

#[test]
fn yesterday_leaves_nothing(rt: HostRuntime) -> Result<(), Fail> {
    let records = rows();
    let mut code = Listed::smallest();
    code.make(3, 7, &records)?;
    let mut old = [word(1); 7];
    let mut new = [word(2); 7];
    let mut renewed = Block::open(5, 9, &mut old);
    let mut fresh = Block::open(5, 10, &mut new);
    assert_eq!(rt; told(renewed.receive(5, 9, 3, word(77))), GRANTED);
    assert_eq!(rt; day(&mut renewed, &code, 9), (((13, 0), 0), GRANTED));
    assert_eq!(rt; told(renewed.renew(10)), GRANTED);
    assert_eq!(rt; day(&mut renewed, &code, 10), ((GRANTED, 29), GRANTED));
    assert_eq!(rt; day(&mut fresh, &code, 10), ((GRANTED, 29), GRANTED));
    assert_eq!(rt; old[3].value, new[3].value);
    Ok(())
}
