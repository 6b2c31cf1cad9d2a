// The calls of a script, as a session takes them, and how its lines are answered.
ghost use Rattle.std.specs.Prelude.{◌≡◌, ◌≤◌, ◌++◌, [], ◌∷◌, Some, IfOk, string_bytes, vec_items, map};
ghost use Rattle.std.specs.Option.{option_map};
ghost use Rattle.session.specs.Sides.{pile_at};
ghost use Rattle.dialogue.specs.Scores.{line, part, fresh, after, say, ask, on, nothing_held, needed, rows_of, hand_of, places_on, widened, marks, taken};

use crate::said::Said;
use crate::verb::Verb;
use piles::{Pile, PolicyName, code_text, sizes_of, tell_row};
use receiver::{Stamp, open_fault};
use script::{perform, print};
use session::{Call, Hand, Order, Which};
use std::alloc::{AllocError, Global};

// How a line is answered: by a text that was known when it was read, by the answer to the next call, or by those to the calls
// that a grid is made of.
#[derive(Drop, PartialEq, Eq, Debug)]
pub(crate) enum Answer {
    Text(String),
    Entry(Verb),
    Grid { places: u32 },
}

// The lengths of the working memory that a solve is handed.
#[derive(Clone, Copy, PartialEq, Eq, Debug)]
pub(crate) struct Memory {
    words: usize,
    symbols: usize,
}

// What no code comes near to.
const MOST_HANDED_IN: u32 = 1_000_000;

// What the lines so far have left in hand.
#[derive(Clone, Copy, PartialEq, Eq, Debug)]
pub(crate) struct InHand {
    // By its place among those of the session.
    code: Option<usize>,
    policy: PolicyName,
    memory: Option<Memory>,
    used: Which,
    // The most places that a block on each side can have.
    first_places: u32,
    second_places: u32,
}

impl InHand {
    fn nothing() -> InHand
        ensures { result ≡ nothing_held }
    {
        InHand {
            code: None,
            policy: PolicyName::First,
            memory: None,
            used: Which::First,
            first_places: 0,
            second_places: 0,
        }
    }

    // The hand of the block that is named.
    fn hand(&self, named: Option<Which>) -> Hand
        ensures { result ≡ hand_of self.now.used named }
    {
        match (self.used, named) {
            (Which::First, Some(Which::Second)) | (Which::Second, Some(Which::First)) => {
                Hand::Other
            }
            _ => Hand::Own,
        }
    }

    fn places(&self) -> u32
        ensures { result ≡ places_on self.now }
    {
        match self.used {
            Which::First => self.first_places,
            Which::Second => self.second_places,
        }
    }

    // An open of these numbers is asked for.
    fn widen(&mut self, number: u32, stamp: Stamp, places: u32)
        ensures { self.new ≡ widened number stamp places self.old }
    {
        if open_fault(number, stamp, places as usize).is_err() {
            return;
        }
        match self.used {
            Which::First => self.first_places = self.first_places.max(places),
            Which::Second => self.second_places = self.second_places.max(places),
        }
    }
}

#[derive(Drop)]
pub(crate) struct Score<S> {
    pub codes: Vec<Pile>,
    pub calls: Vec<Call<S>>,
    pub answers: Vec<Answer>,
    held: InHand,
}

// The rows of the code of a pile.
fn rows_of(pile: &Pile) -> usize
    ensures rows { result ≡ rows_of (Some pile.now) }
    ensures few { result ≤ 256 }
{
    match sizes_of(pile) {
        Ok(shape) => shape.rows,
        Err(_) => 0,
    }
}

// For each place its mark, and a show under the block's own permit.
fn ask_places<S: Copy>(
    calls: &mut Vec<Call<S>>,
    block: Which,
    places: u32,
) -> Result<(), AllocError>
    ensures { IfOk result (λ u. vec_items calls.new ≡ vec_items calls.old ++ marks block 0 places) }
{
    for place in 0..places {
        let mark = Order::Mark { place };
        calls.push(Call { block, order: mark })?;
        let show = Order::Show {
            place,
            hand: Hand::Own,
        };
        calls.push(Call { block, order: show })?;
    }
    Ok(())
}

impl<S: Copy> Score<S> {
    pub(crate) fn new(heap: Global, answers: Vec<Answer>) -> Score<S>
        ensures { part result ≡ fresh (map line (vec_items answers)) }
    {
        Score {
            codes: Vec::new(heap),
            calls: Vec::new(heap),
            answers,
            held: InHand::nothing(),
        }
    }

    // A line that is answered at once.
    pub(crate) fn say(&mut self, text: String) -> Result<(), AllocError>
        ensures { IfOk result (λ u. part self.new ≡ say (string_bytes text) (part self.old)) }
    {
        Ok(self.answers.push(Answer::Text(text))?)
    }

    fn say_text(&mut self, heap: Global, text: &str) -> Result<(), AllocError>
        ensures { IfOk result (λ u. part self.new ≡ say text.now (part self.old)) }
    {
        self.say(String::from_str(heap, text)?)
    }

    fn call(&mut self, order: Order<S>) -> Result<(), AllocError>
        ensures { IfOk result (λ u. part self.new ≡ after (part self.old) self.old.held (on self.old.held.used order ∷ []) []) }
    {
        let block = self.held.used;
        Ok(self.calls.push(Call { block, order })?)
    }

    // A line that is answered by a call on the block in use.
    fn ask(&mut self, verb: Verb, order: Order<S>) -> Result<(), AllocError>
        ensures { IfOk result (λ u. part self.new ≡ ask verb order (part self.old)) }
    {
        self.call(order)?;
        Ok(self.answers.push(Answer::Entry(verb))?)
    }

    // A code that is made is in hand from then on.
    fn take_code(&mut self, heap: Global, pile: Pile) -> Result<(), AllocError>
        ensures { IfOk result (λ u. part self.new ≡ taken (Said.Code pile) (part self.old)) }
    {
        match sizes_of(&pile) {
            Ok(shape) => {
                self.held.code = Some(self.codes.len());
                self.codes.push(pile)?;
                self.say(code_text(heap, Ok(shape))?)
            }
            Err(refusal) => self.say(code_text(heap, Err(refusal))?),
        }
    }

    fn pile(&self) -> Option<&Pile>
        ensures { option_map (λ p. p.now) result ≡ pile_at (vec_items self.now.codes) self.now.held.code }
    {
        self.codes.as_slice().get(self.held.code?)
    }

    fn take_row(&mut self, heap: Global, r: u32) -> Result<(), AllocError>
        ensures { IfOk result (λ u. part self.new ≡ taken (Said.Row r) (part self.old)) }
    {
        let text = tell_row(heap, r as usize, self.pile())?;
        self.say(text)
    }

    // The rows of the code in hand, where there is one.
    fn rows(&self) -> usize
        ensures rows { result ≡ rows_of (pile_at (vec_items self.now.codes) self.now.held.code) }
        ensures few { result ≤ 256 }
    {
        match self.pile() {
            Some(pile) => rows_of(pile),
            None => 0,
        }
    }

    // The memory that was asked for, and what the code in hand needs where none was.
    fn needed(&self) -> Memory
        ensures { result ≡ needed (vec_items self.now.codes) self.now.held }
    {
        if let Some(memory) = self.held.memory {
            return memory;
        }
        let rows = self.rows();
        Memory {
            words: rows * 8,
            symbols: rows,
        }
    }

    fn solve(&mut self) -> Result<(), AllocError>
        ensures { IfOk result (λ u. part self.new ≡ taken Said.Solve (part self.old)) }
    {
        let Memory { words, symbols } = self.needed();
        let order = Order::Solve {
            code: self.held.code,
            policy: self.held.policy,
            words,
            symbols,
        };
        self.ask(Verb::Solve, order)
    }

    // The figure, and for each place that the block can have its mark and a show.
    fn ask_grid(&mut self) -> Result<(), AllocError>
        ensures { IfOk result (λ u. part self.new ≡ taken Said.Grid (part self.old)) }
    {
        let places = self.held.places();
        self.call(Order::Figure)?;
        ask_places(&mut self.calls, self.held.used, places)?;
        Ok(self.answers.push(Answer::Grid { places })?)
    }

    // Takes what a line says.
    pub(crate) fn take(&mut self, heap: Global, said: Said<S>) -> Result<(), AllocError>
        ensures { IfOk result (λ u. part self.new ≡ taken said (part self.old)) }
    {
        match said {
            Said::Apart(call) => self.say(print(heap, &perform(&call))?),
            Said::Symbols(_) => self.say_text(heap, "symbols not at the start"),
            Said::Code(pile) => self.take_code(heap, pile),
            Said::Row(r) => self.take_row(heap, r),
            Said::Policy(policy) => {
                self.held.policy = policy;
                self.say_text(heap, "policy granted")
            }
            Said::Memory { words, symbols } => {
                self.held.memory = Some(Memory {
                    words: words.min(MOST_HANDED_IN) as usize,
                    symbols: symbols.min(MOST_HANDED_IN) as usize,
                });
                self.say_text(heap, "memory granted")
            }
            Said::Use(which) => {
                self.held.used = which;
                self.say_text(heap, "use granted")
            }
            Said::Open {
                number,
                stamp,
                places,
            } => {
                self.held.widen(number, stamp, places);
                let order = Order::Open {
                    number,
                    stamp,
                    places: places as usize,
                };
                self.ask(Verb::Open, order)
            }
            Said::Receive {
                number,
                stamp,
                place,
                symbol,
            } => {
                let order = Order::Receive {
                    number,
                    stamp,
                    place,
                    symbol,
                };
                self.ask(Verb::Receive, order)
            }
            Said::Packet { stamp, bytes } => {
                self.ask(Verb::Packet, Order::Packet { stamp, bytes })
            }
            Said::Run { stamp, bytes } => self.ask(Verb::Run, Order::Run { stamp, bytes }),
            Said::Solve => self.solve(),
            Said::Show { place, named } => {
                let hand = self.held.hand(named);
                self.ask(Verb::Show, Order::Show { place, hand })
            }
            Said::Close { named } => {
                let hand = self.held.hand(named);
                self.ask(Verb::Close, Order::Close { hand })
            }
            Said::Renew { stamp } => self.ask(Verb::Renew, Order::Renew { stamp }),
            Said::Figure => self.ask(Verb::Figure, Order::Figure),
            Said::Grid => self.ask_grid(),
        }
    }
}
