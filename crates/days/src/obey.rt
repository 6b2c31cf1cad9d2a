// Obeying one order on a block.
ghost use Rattle.std.specs.Prelude.{◌*◌, length};
ghost use Rattle.codes.specs.Matrix.{height};
ghost use Rattle.receiver.specs.View.{model};
ghost use Rattle.days.specs.Days.{Cleared, Obeyed};

use crate::order::{Entry, Order};
use codes::Code;
use policies::Policy;
use receiver::Desk;
use symbols::Symbol;

// Solves; the permit in hand afterwards is the one given, or the one before. The session's own has another entry; one function
// for both would have a precondition.
fn obey_solve<S: Symbol, C: Code, P: Policy>(
    desk: &mut Desk<'_, S>,
    code: &C,
    policy: &mut P,
    words: &mut [u64],
    sides: &mut [S],
) -> Entry<S>
    ensures obeyed { Obeyed S.Symbol.kind P.Policy.choice (C.Rows.matrix code.now) (length words.old) (length sides.old) (model desk.old.block) (model desk.new.block) policy.old policy.new desk.old.held desk.new.held Order.Solve result }
    ensures words { Cleared 0 (8 * height (C.Rows.matrix code.now)) words.old words.new }
    ensures sides { Cleared S.Symbol.kind.zero (height (C.Rows.matrix code.now)) sides.old sides.new }
{
    match desk.block.solve(code, policy, words, sides) {
        Ok(permit) => {
            let report = permit.report();
            match desk.held.replace(permit) {
                None => Entry::Solved(Ok(report)),
                Some(_old) => unreachable(),
            }
        }
        Err(e) => Entry::Solved(Err(e)),
    }
}

// Obeys one order.
pub(crate) fn obey<S: Symbol, C: Code, P: Policy>(
    desk: &mut Desk<'_, S>,
    code: &C,
    policy: &mut P,
    words: &mut [u64],
    sides: &mut [S],
    order: Order<S>,
) -> Entry<S>
    ensures obeyed { Obeyed S.Symbol.kind P.Policy.choice (C.Rows.matrix code.now) (length words.old) (length sides.old) (model desk.old.block) (model desk.new.block) policy.old policy.new desk.old.held desk.new.held order result }
    ensures words { Cleared 0 (8 * height (C.Rows.matrix code.now)) words.old words.new }
    ensures sides { Cleared S.Symbol.kind.zero (height (C.Rows.matrix code.now)) sides.old sides.new }
{
    match order {
        Order::Receive {
            number,
            stamp,
            place,
            symbol,
        } => Entry::Received(desk.block.receive(number, stamp, place, symbol)),
        Order::Solve => obey_solve(desk, code, policy, words, sides),
        Order::Show { place } => match &desk.held {
            Some(permit) => Entry::Shown(desk.block.shown(permit, place)),
            None => Entry::NoPermit,
        },
        Order::Close => {
            if desk.close() {
                Entry::Closed
            } else {
                Entry::NoPermit
            }
        }
        Order::Renew { stamp } => Entry::Renewed(desk.block.renew(stamp)),
    }
}
