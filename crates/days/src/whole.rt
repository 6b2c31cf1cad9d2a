// A day on one block: its open, one call after another, and the log.
ghost use Rattle.std.specs.Prelude.{◌≡◌, ◌*◌, [], length, Some, None};
ghost use Rattle.codes.specs.Matrix.{height};
ghost use Rattle.receiver.specs.Stands.{Stands};
ghost use Rattle.receiver.specs.History.{Opened};
ghost use Rattle.receiver.specs.View.{model};
ghost use Rattle.days.specs.Days.{now_of, day_on, AllAnswer, Cleared, DayTrue};
ghost use Rattle.days.specs.Whole.{Day};

use crate::obey::obey;
use crate::order::{Entry, Order};
use codes::Code;
use policies::Policy;
use receiver::{Block, Desk, Fault, Stamp, open_fault};
use symbols::Symbol;

// Obeys one order after another, and closes the block where a permit is left in hand.
fn serve<S: Symbol, C: Code, P: Policy>(
    desk: &mut Desk<'_, S>,
    code: &C,
    policy: &mut P,
    words: &mut [u64],
    sides: &mut [S],
    orders: &[Order<S>],
    log: &mut [Entry<S>],
)
    requires { length log.old ≡ length orders.now }
    ensures day { (o : Opened) → Stands S.Symbol.kind o [] (model desk.old.block) → DayTrue S.Symbol.kind o (day_on S.Symbol.kind P.Policy.choice (C.Rows.matrix code.now) (length words.old) (length sides.old) (Some (now_of (model desk.old.block) policy.old desk.old.held [])) orders.now log.new) }
    ensures answers { AllAnswer S.Symbol.kind P.Policy.choice (C.Rows.matrix code.now) (length words.old) (length sides.old) (Some (now_of (model desk.old.block) policy.old desk.old.held [])) orders.now log.new }
    ensures words { Cleared 0 (8 * height (C.Rows.matrix code.now)) words.old words.new }
    ensures sides { Cleared S.Symbol.kind.zero (height (C.Rows.matrix code.now)) sides.old sides.new }
    ensures held { desk.new.held ≡ None }
{
    // By place, since after a `zip` over `iter_mut` a proof knows no element.
    for (i, order) in orders.iter().enumerate() {
        log[i] = obey(desk, code, policy, words, sides, *order);
    }
    desk.close();
}

// Why a day was not begun: its log is not as long as its orders, which is judged first, or its open was refused.
#[derive(Clone, Copy, PartialEq, Eq, Debug)]
pub enum Unbegun {
    Refused(Fault),
    LogLength(usize),
}

// Opens a block over the table, makes one call after another on it and enters each answer in the log. A permit that is left
// in hand at the end is closed.
pub fn day<S: Symbol, C: Code, P: Policy>(
    number: u32,
    stamp: Stamp,
    table: &mut [S],
    code: &C,
    policy: &mut P,
    words: &mut [u64],
    sides: &mut [S],
    orders: &[Order<S>],
    log: &mut [Entry<S>],
) -> Result<(), Unbegun>
    ensures day { Day S.Symbol.kind P.Policy.choice (C.Rows.matrix code.now) (length words.old) (length sides.old) number stamp table.old policy.old orders.now log.old log.new result }
    ensures words { Cleared 0 (8 * height (C.Rows.matrix code.now)) words.old words.new }
    ensures sides { Cleared S.Symbol.kind.zero (height (C.Rows.matrix code.now)) sides.old sides.new }
{
    if log.len() != orders.len() {
        return Err(Unbegun::LogLength(log.len()));
    }
    open_fault(number, stamp, table.len()).map_err(|fault| Unbegun::Refused(fault))?;
    let mut desk = Desk {
        block: Block::open(number, stamp, table),
        held: None,
    };
    serve(&mut desk, code, policy, words, sides, orders, log);
    let Desk { block: _, held } = desk;
    match held {
        None => Ok(()),
        Some(_permit) => unreachable(),
    }
}
