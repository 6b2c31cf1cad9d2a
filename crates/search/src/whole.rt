// The whole search.
ghost use Rattle.std.specs.Prelude.{◌≡◌, ◌*◌, ◌≤◌, Bool, List, length, None};
ghost use Rattle.refusals.specs.Refusals.{first_of};
ghost use Rattle.codes.specs.Matrix.{height};
ghost use Rattle.method.specs.Method.{start};
ghost use Rattle.search.specs.Answers.{causes};
ghost use Rattle.search.specs.Steps.{Going};
ghost use Rattle.search.specs.View.{bare};
ghost use Rattle.search.specs.Searches.{Run, Looked, Tells, done, searched, marks_in, read_out};

use crate::answer::{Report, Unfound};
use crate::elimination::Elimination;
use crate::found::Found;
use crate::heard::Heard;
use crate::read::{clashes, places, wipe};
use codes::Code;
use policies::Policy;
use symbols::Symbol;

impl<S: Symbol> Elimination<'_, S> {
    // Eliminates, and tells what was found.
    fn solve<C: Code, P: Policy>(&mut self, code: &C, policy: &mut P) -> Result<Found, Unfound>
        requires going { Going S.Symbol.kind self.old }
        requires wide { self.old.active.width ≡ (C.Rows.matrix code.now).width }
        requires high { length self.old.sides.now ≡ height (C.Rows.matrix code.now) }
        ensures words { self.new.words.ghost_name ≡ self.old.words.ghost_name }
        ensures sides { self.new.sides.ghost_name ≡ self.old.sides.ghost_name }
        ensures run { (received : List Bool) (table : List S) → bare S.Symbol.kind self.old ≡ start S.Symbol.kind (C.Rows.matrix code.now) (marks_in (C.Rows.matrix code.now) received) table tt → Run S.Symbol.kind P.Policy.choice (C.Rows.matrix code.now) received table policy.old policy.new self.new.words.now self.new.sides.now result }
    {
        self.eliminate(code, policy);
        let uses = self.uses;
        let report = Report {
            pivots: self.pivots.len() as u32,
            additions: self.additions,
        };
        let free = self.free.len() as u32;
        bits::wipe(self.words);
        // Through a reference of its own, since a proof forgets what a field holds once it is lent.
        let sides = &mut *self.sides;
        let m = sides.len();
        if clashes(sides, &uses) {
            wipe(sides, m);
            return Err(Unfound::NoCodeword(report));
        }
        if free > 0 {
            wipe(sides, m);
            return Err(Unfound::Several(report, free));
        }
        Ok(Found {
            report,
            rows: places(&uses, m),
        })
    }
}

// A search in memory of just the size of the code: what is proved of it goes on to memory of any length below.
fn run<S: Symbol, C: Code, P: Policy>(
    heard: &Heard<'_, S, C>,
    policy: &mut P,
    words: &mut [u64],
    sides: &mut [S],
) -> Result<Found, Unfound>
    requires high { length sides.old ≡ height (C.Rows.matrix heard.now.code.now) }
    requires within { length words.old ≡ 8 * length sides.old }
    ensures { Run S.Symbol.kind P.Policy.choice (C.Rows.matrix heard.now.code.now) heard.now.received.now heard.now.table.now policy.old policy.new words.new sides.new result }
{
    let mut kept = [0; 2048];
    heard
        .load(words, sides, &mut kept)
        .solve(heard.code, policy)
}

// Searches the codewords of a code that agree with a table at the places received, with a policy, in working memory of
// eight words and one symbol for each row. With one codeword the right sides are left for reading it out; else, and in
// the words, zero is left.
// Words and right sides are two slices, as the rules speak of them.
pub fn look<S: Symbol, C: Code, P: Policy>(
    code: &C,
    policy: &mut P,
    table: &[S],
    received: &[bool; 512],
    words: &mut [u64],
    sides: &mut [S],
) -> Result<Found, Unfound>
    ensures { Looked S.Symbol.kind P.Policy.choice (C.Rows.matrix code.now) received.now table.now policy.old words.old sides.old policy.new words.new sides.new result }
{
    let shape = code.shape();
    if shape.columns != table.len() {
        return Err(Unfound::OtherWidth(shape.columns));
    }
    let m = shape.rows;
    if words.len() < 8 * m || sides.len() < m {
        return Err(Unfound::ShortMemory(m));
    }
    let heard = Heard {
        code,
        table,
        received,
    };
    run(&heard, policy, &mut words[..8 * m], &mut sides[..m])
}

// Writes the symbol of each missing place.
fn fill<S: Symbol>(table: &mut [S], received: &[bool; 512], found: &Found, sides: &[S])
    requires { length table.old ≤ 512 }
    ensures { table.new ≡ read_out S.Symbol.kind found.now received.now sides.now table.old }
{
    // By place, since after a `zip` over `iter_mut` a proof knows no element.
    for (c, place) in table.iter_mut().enumerate() {
        if !received[c] {
            *place = found.symbol(sides, c);
        }
    }
}

// Searches, and fills the missing places where just one codeword agrees.
pub fn search<S: Symbol, C: Code, P: Policy>(
    code: &C,
    policy: &mut P,
    table: &mut [S],
    received: &[bool; 512],
    words: &mut [u64],
    sides: &mut [S],
) -> Result<Report, Unfound>
    ensures done { done result table.new policy.new words.new sides.new ≡ searched S.Symbol.kind P.Policy.choice (C.Rows.matrix code.now) received.now table.old policy.old words.old sides.old }
    ensures tells { first_of (causes (C.Rows.matrix code.now) (length table.old) (length words.old) (length sides.old)) ≡ None → Tells S.Symbol.kind (C.Rows.matrix code.now) (marks_in (C.Rows.matrix code.now) received.now) table.old table.new result }
{
    let found = look(code, policy, table, received, words, sides)?;
    fill(table, received, &found, sides);
    wipe(sides, code.shape().rows);
    Ok(found.report())
}
