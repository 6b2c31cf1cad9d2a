// A whole session: one call after another on two blocks.
ghost use Rattle.std.specs.Prelude.{◌≡◌, List, [], length, None, replicate, Option};
ghost use Rattle.std.specs.Option.{option_map};
ghost use Rattle.receiver.specs.History.{Event, Opened};
ghost use Rattle.receiver.specs.View.{model};
ghost use Rattle.session.specs.Obeying.{setting};
ghost use Rattle.session.specs.Sessions.{Asked, Cut, OpenMade, Played, Session, Turned, Unopened, emptied};
ghost use Rattle.session.specs.Sides.{Day, memory_of, side};

use crate::acting::obey;
use crate::carried::Carried;
use crate::order::{Call, Entry, Order, Which};
use piles::Pile;
use receiver::{Block, Desk, Permit, Stamp, open_fault};
use symbols::Symbol;

// Whether each block's permit was left in its hand at the end of a session: two facts told to the caller.
#[derive(Clone, Copy, PartialEq, Eq, Debug)]
pub struct Left {
    pub first: bool,
    pub second: bool,
}

// The log is not as long as the calls; its length.
#[derive(Clone, Copy, PartialEq, Eq, Debug)]
pub struct LogLength(pub usize);

// One of the two desks of a session, and whether a block was ever opened on it. Not an Option<Desk>: a desk is not Drop,
// since its permit is not, so nothing may be assigned over one, and the borrow checker does not cover `replace` of it (a
// type argument holds a `&mut` and a ghost field).
pub(crate) struct Seat<'a, S> {
    desk: Desk<'a, S>,
    begun: bool,
}

// Cuts a table of n places off the session's tables, or none where fewer are left.
fn cut<'a, S>(tables: &mut &'a mut [S], n: usize) -> Option<&'a mut [S]>
    ensures { Cut n (length tables.old.now) (option_map (λ t. length t.now) result) (length tables.new.now) }
{
    tables.split_off_mut(..n)
}

impl<'a, S: Carried> Seat<'a, S> {
    // Opens a block where one was, over a table of its own; the hand is empty. Where the open is refused, the table has no
    // place.
    fn open_anew(
        &mut self,
        tables: &mut &'a mut [S],
        number: u32,
        stamp: Stamp,
        places: usize,
    ) -> Entry<S>
        requires { self.old.desk.held ≡ None }
        ensures made { OpenMade S.Symbol.kind number stamp places self.old.begun (model self.old.desk.block) (length tables.old.now) result self.new.begun (model self.new.desk.block) (length tables.new.now) }
        ensures held { self.new.desk.held ≡ None }
    {
        let opened = open_fault(number, stamp, places);
        let Some(table) = cut(tables, opened.map_or(0, |()| places)) else {
            return Entry::NoMemory;
        };
        self.desk.block = Block::open(number, stamp, table);
        self.begun = true;
        Entry::Opened(opened)
    }

    // One call on the side that it goes to.
    fn ask(
        &mut self,
        other: &mut Option<Permit>,
        tables: &mut &'a mut [S],
        codes: &[Pile],
        words: &mut [u64],
        sides: &mut [S],
        order: &Order<S>,
    ) -> Entry<S>
        ensures asked { (o : Option Opened) (h : List (Event S)) (ds : List (Day S)) → Asked (setting S.Symbol.kind S.Carried.carriage codes.now (memory_of words.old sides.old)) other.old (side self.old.begun (model self.old.desk.block) self.old.desk.held o h ds) (length tables.old.now) order.now result self.new.begun (model self.new.desk.block) self.new.desk.held (length tables.new.now) }
        ensures other { other.new ≡ other.old }
    {
        if let Order::Open {
            number,
            stamp,
            places,
        } = order
        {
            return match self.desk.held {
                Some(_) => Entry::PermitInHand,
                None => self.open_anew(tables, *number, *stamp, *places),
            };
        }
        if !self.begun {
            return Entry::NoBlock;
        }
        obey(&mut self.desk, other, codes, words, sides, order)
    }
}

// Lets an empty hand go. Private, as `put`.
fn let_go(hand: Option<Permit>)
    requires { hand ≡ None }
{
    match hand {
        None => {}
        Some(_permit) => unreachable(),
    }
}

// One call on the block that it goes to. Two arms: which desk is lent for its hand differs, and a pair picked first is no shorter.
fn turn<'a, S: Carried>(
    first: &mut Seat<'a, S>,
    second: &mut Seat<'a, S>,
    tables: &mut &'a mut [S],
    codes: &[Pile],
    words: &mut [u64],
    sides: &mut [S],
    call: &Call<S>,
) -> Entry<S>
    ensures { Turned (setting S.Symbol.kind S.Carried.carriage codes.now (memory_of words.old sides.old)) call.now result first.old first.new second.old second.new (length tables.old.now) (length tables.new.now) }
{
    let order = &call.order;
    match call.block {
        Which::First => {
            let other = &mut second.desk;
            first.ask(&mut other.held, tables, codes, words, sides, order)
        }
        Which::Second => {
            let other = &mut first.desk;
            second.ask(&mut other.held, tables, codes, words, sides, order)
        }
    }
}

// Makes the calls one after another, and closes the blocks whose permits are left in hand.
fn serve<'a, S: Carried>(
    first: &mut Seat<'a, S>,
    second: &mut Seat<'a, S>,
    mut tables: &'a mut [S],
    codes: &[Pile],
    calls: &[Call<S>],
    words: &mut [u64],
    sides: &mut [S],
    log: &mut [Entry<S>],
) -> Left
    requires first { Unopened S.Symbol.kind first.old }
    requires second { Unopened S.Symbol.kind second.old }
    requires long { length log.old ≡ length calls.now }
    ensures session { Session (setting S.Symbol.kind S.Carried.carriage codes.now (memory_of words.old sides.old)) (length tables.old) calls.now log.new result }
    ensures first { first.new.desk.held ≡ None }
    ensures second { second.new.desk.held ≡ None }
{
    // Not zip with `log.iter_mut()`: of what it lent the proof then knows the length, and no element.
    for (i, call) in calls.iter().enumerate() {
        log[i] = turn(first, second, &mut tables, codes, words, sides, call);
    }
    Left {
        first: first.desk.close(),
        second: second.desk.close(),
    }
}

// Makes the calls of a session one after another on two blocks, over tables that are cut off the ones handed in, with
// these codes and this working memory, and enters each answer in the log. Permits that are left in a hand at the end are
// closed, and nothing is left in the memory.
pub fn play<S: Carried>(
    codes: &[Pile],
    calls: &[Call<S>],
    tables: &mut [S],
    words: &mut [u64],
    sides: &mut [S],
    log: &mut [Entry<S>],
) -> Result<Left, LogLength>
    ensures played { Played (setting S.Symbol.kind S.Carried.carriage codes.now (memory_of words.old sides.old)) (length tables.old) calls.now log.old log.new result }
    ensures tables { tables.new ≡ emptied S.Symbol.kind.zero tables.old result }
    ensures words { words.new ≡ emptied 0 words.old result }
    ensures sides { sides.new ≡ emptied S.Symbol.kind.zero sides.old result }
{
    if log.len() != calls.len() {
        return Err(LogLength(log.len()));
    }
    let left = open_and_serve(codes, calls, tables, words, sides, log);
    empty(tables);
    bits::wipe(words);
    empty(sides);
    Ok(left)
}

// Makes every symbol zero.
fn empty<S: Symbol>(symbols: &mut [S])
    ensures { symbols.new ≡ replicate (length symbols.old) S.Symbol.kind.zero }
{
    let n = symbols.len();
    search::wipe(symbols, n);
}

// A seat where no block was ever opened, over a table of no places.
fn unopened<S: Carried>(none: &mut [S]) -> Seat<'_, S>
    requires { none.old ≡ [] }
    ensures { Unopened S.Symbol.kind result }
{
    Seat {
        desk: Desk {
            block: Block::open(0, 0, none),
            held: None,
        },
        begun: false,
    }
}

// Begins with two blocks that were never opened.
fn open_and_serve<S: Carried>(
    codes: &[Pile],
    calls: &[Call<S>],
    tables: &mut [S],
    words: &mut [u64],
    sides: &mut [S],
    log: &mut [Entry<S>],
) -> Left
    requires { length log.old ≡ length calls.now }
    ensures { Session (setting S.Symbol.kind S.Carried.carriage codes.now (memory_of words.old sides.old)) (length tables.old) calls.now log.new result }
{
    let mut first = unopened(&mut []);
    let mut second = unopened(&mut []);
    let left = serve(
        &mut first,
        &mut second,
        tables,
        codes,
        calls,
        words,
        sides,
        log,
    );
    // Twice: a function may not take by value a struct that holds both a `&mut` and a ghost field.
    let Seat {
        desk: Desk { block: _, held },
        begun: _,
    } = first;
    let_go(held);
    let Seat {
        desk: Desk { block: _, held },
        begun: _,
    } = second;
    let_go(held);
    left
}
