// Making one call on an opened block, and entering its answer.
ghost use Rattle.std.specs.Prelude.{◌≡◌, ◌≤◌, false, ◌||◌, ltb, List, length, take, Some, None, Option, nat_lt};
ghost use Rattle.std.specs.Option.{option_map};
ghost use Rattle.piles.specs.declared.pile.Pile.{Pile};
ghost use Rattle.receiver.specs.declared.permit.Permit.{Permit};
ghost use Rattle.receiver.specs.Calls.{owns};
ghost use Rattle.receiver.specs.Blocks.{seen};
ghost use Rattle.receiver.specs.View.{model};
ghost use Rattle.session.specs.declared.order.Hand.TheVariants.{Other};
ghost use Rattle.session.specs.Obeying.{setting, Acted, is_open, ShownIn, CloseRefused, FreeFor, solved_entry, hand_after, alike as numbers_alike};
ghost use Rattle.session.specs.Sides.{Memory, memory_of, pile_at};

use crate::carried::Carried;
use crate::order::{Entry, Hand, Order};
use crate::solving::solve_pile;
use piles::{Pile, PolicyName};
use receiver::{Block, Desk, Fault, Permit, Stamp, Unclosed, Unsolved};

// A packet and a run have a function each: one for both would be handed the method, the order and the case.
fn obey_packet<S: Carried>(block: &mut Block<'_, S>, stamp: Stamp, bytes: &Vec<u8>) -> Entry<S>
    ensures { (ps : List Pile) (memory : Memory) (q other : Option Permit) → Acted (setting S.Symbol.kind S.Carried.carriage ps memory) (model block.old) (model block.new) q q other (Order.Packet stamp bytes.now) result }
{
    S::take_packet(block, stamp, bytes.as_slice()).map_or(
        Entry::NotCells,
        |answer| Entry::Packed(answer),
    )
}

fn obey_run<S: Carried>(block: &mut Block<'_, S>, stamp: Stamp, bytes: &Vec<u8>) -> Entry<S>
    ensures { (ps : List Pile) (memory : Memory) (q other : Option Permit) → Acted (setting S.Symbol.kind S.Carried.carriage ps memory) (model block.old) (model block.new) q q other (Order.Run stamp bytes.now) result }
{
    S::take_run(block, stamp, bytes.as_slice()).map_or(Entry::NotCells, |answer| Entry::Ran(answer))
}

// Shows a place under the permit in a hand. Not by `map_or`: of its closure a proof knows no answer, and `returns` stays open.
fn show_in<S: Carried>(block: &Block<'_, S>, hand: &Option<Permit>, place: u32) -> Entry<S>
    ensures { ShownIn S.Symbol.kind (model block.now) hand.now place result }
{
    match hand {
        Some(permit) => Entry::Shown(block.shown(permit, place)),
        None => Entry::NoPermit,
    }
}

// Whether two permits have the same numbers: those two say which permit it is, and its report does not.
fn alike(held: &Option<Permit>, permit: &Permit) -> bool
    ensures { result ≡ numbers_alike held.now permit.now }
{
    held.as_ref().is_some_and(|own| own.number() == permit.number()
        && own.stamp() == permit.stamp())
}

// Hands the other block's permit to close, which refuses it and gives it back.
fn close_under<S: Carried>(block: &mut Block<'_, S>, permit: Permit) -> (Entry<S>, Permit)
    requires { owns (seen (model block.old)) permit ≡ false }
    ensures { CloseRefused S.Symbol.kind (model block.old) permit (model block.new) result.0 result.1 }
{
    let Err(Unclosed { stamp, permit }) = block.close(permit) else {
        unreachable()
    };
    (Entry::Closed(Err(Fault::NotItsPermit(stamp))), permit)
}

// Whether a session has less working memory than a solve asks for.
fn short<S>(words: &[u64], sides: &[S], asked_words: usize, symbols: usize) -> bool
    ensures { result ≡ (ltb (length words.now) asked_words || nat_lt (length sides.now) symbols) }
{
    words.len() < asked_words || sides.len() < symbols
}

// The first n elements.
fn front<T>(all: &mut [T], n: usize) -> &mut [T]
    requires { n ≤ length all.old }
    ensures long { length result.now ≡ n }
    ensures first { result.now ≡ take n all.old }
{
    &mut all[..n]
}

// One of the session's codes, by its place.
fn pile_at(codes: &[Pile], code: Option<usize>) -> Option<&Pile>
    ensures { option_map (λ x. x.now) result ≡ pile_at codes.now code }
{
    codes.get(code?)
}

// Puts a permit into an empty hand. Private here: as a public function it would have a precondition.
fn put(hand: &mut Option<Permit>, permit: Permit)
    requires { hand.old ≡ None }
    ensures { hand.new ≡ Some permit }
{
    match hand.replace(permit) {
        None => {}
        Some(_old) => unreachable(),
    }
}

// The entry of a solve; a permit that it gave is put in the hand, where none was.
// Not by `map`, which does not say that its closure was not called at a refusal: the clause of the hand stays open.
fn solved<S: Carried>(hand: &mut Option<Permit>, answer: Result<Permit, Unsolved>) -> Entry<S>
    requires { FreeFor hand.old answer }
    ensures entry { result ≡ solved_entry answer }
    ensures hand { hand.new ≡ hand_after hand.old answer }
{
    match answer {
        Ok(permit) => {
            let report = permit.report();
            put(hand, permit);
            Entry::Solved(Ok(report))
        }
        Err(unsolved) => Entry::Solved(Err(unsolved)),
    }
}

fn obey_show<S: Carried>(
    desk: &Desk<'_, S>,
    other: &Option<Permit>,
    place: u32,
    hand: Hand,
) -> Entry<S>
    ensures { (ps : List Pile) (memory : Memory) → Acted (setting S.Symbol.kind S.Carried.carriage ps memory) (model desk.now.block) (model desk.now.block) desk.now.held desk.now.held other.now (Order.Show place hand) result }
{
    let under = match hand {
        Hand::Own => &desk.held,
        Hand::Other => other,
    };
    show_in(&desk.block, under, place)
}

fn obey_close_other<S: Carried>(desk: &mut Desk<'_, S>, other: &mut Option<Permit>) -> Entry<S>
    ensures acted { (ps : List Pile) (memory : Memory) → Acted (setting S.Symbol.kind S.Carried.carriage ps memory) (model desk.old.block) (model desk.new.block) desk.old.held desk.new.held other.old (Order.Close Other) result }
    ensures other { other.new ≡ other.old }
{
    let Some(permit) = other.take() else {
        return Entry::NoPermit;
    };
    if alike(&desk.held, &permit) {
        put(other, permit);
        return Entry::OtherBlocks;
    }
    let (entry, back) = close_under(&mut desk.block, permit);
    put(other, back);
    entry
}

// Solves; the permit in hand afterwards is the one given, or the one before.
fn obey_solve<S: Carried>(
    desk: &mut Desk<'_, S>,
    codes: &[Pile],
    words: &mut [u64],
    sides: &mut [S],
    code: Option<usize>,
    policy: PolicyName,
    asked_words: usize,
    symbols: usize,
) -> Entry<S>
    ensures { (other : Option Permit) → Acted (setting S.Symbol.kind S.Carried.carriage codes.now (memory_of words.old sides.old)) (model desk.old.block) (model desk.new.block) desk.old.held desk.new.held other (Order.Solve code policy asked_words symbols) result }
{
    if short(words, sides, asked_words, symbols) {
        return Entry::NoMemory;
    }
    let Some(pile) = pile_at(codes, code) else {
        return Entry::NoCode;
    };
    let words = front(words, asked_words);
    let sides = front(sides, symbols);
    match solve_pile(&mut desk.block, pile, policy, words, sides) {
        Ok(answer) => solved(&mut desk.held, answer),
        Err(_none) => Entry::NoCode,
    }
}

// Makes a call on an opened block.
// The codes and the memory stay apart: a slice that is lent keeps its length, and a struct of them would have each
// contract say so.
pub(crate) fn obey<S: Carried>(
    desk: &mut Desk<'_, S>,
    other: &mut Option<Permit>,
    codes: &[Pile],
    words: &mut [u64],
    sides: &mut [S],
    order: &Order<S>,
) -> Entry<S>
    ensures acted { is_open order.now ≡ false → Acted (setting S.Symbol.kind S.Carried.carriage codes.now (memory_of words.old sides.old)) (model desk.old.block) (model desk.new.block) desk.old.held desk.new.held other.old order.now result }
    ensures other { other.new ≡ other.old }
{
    match order {
        Order::Open { .. } => Entry::NoBlock,
        Order::Receive {
            number,
            stamp,
            place,
            symbol,
        } => Entry::Received(desk.block.receive(*number, *stamp, *place, *symbol)),
        Order::Packet { stamp, bytes } => obey_packet(&mut desk.block, *stamp, bytes),
        Order::Run { stamp, bytes } => obey_run(&mut desk.block, *stamp, bytes),
        Order::Renew { stamp } => Entry::Renewed(desk.block.renew(*stamp)),
        Order::Figure => Entry::Figured(desk.block.figure()),
        Order::Mark { place } => Entry::Marked(desk.block.mark(*place)),
        Order::Solve {
            code,
            policy,
            words: asked_words,
            symbols,
        } => obey_solve(
            desk,
            codes,
            words,
            sides,
            *code,
            *policy,
            *asked_words,
            *symbols,
        ),
        Order::Show { place, hand } => obey_show(desk, other, *place, *hand),
        Order::Close { hand: Hand::Own } => {
            if desk.close() {
                Entry::Closed(Ok(()))
            } else {
                Entry::NoPermit
            }
        }
        Order::Close { hand: Hand::Other } => obey_close_other(desk, other),
    }
}
