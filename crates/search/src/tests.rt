// The worked examples: the answer, and the table and the memory afterwards, under each policy; and searches refused.
use crate::answer::{Report, Unfound};
use crate::whole::search;
use codes::{Listed, Record};
use policies::{Component, First, Heaviest, Policy};
use std::process::Abort;
use std::test::Fail;
use symbols::Bit;

const O: Bit = Bit::Zero;

const I: Bit = Bit::One;

const SENT: [Bit; 7] = [I, I, I, O, O, O, O];

fn one(row: u16, column: u16) -> Record {
    Record { row, column }
}

// The rows {0,2,4,6}, {1,2,5,6}, {3,4,5,6}.
fn records() -> [Record; 12] {
    [
        one(0, 0),
        one(0, 2),
        one(0, 4),
        one(0, 6),
        one(1, 1),
        one(1, 2),
        one(1, 5),
        one(1, 6),
        one(2, 3),
        one(2, 4),
        one(2, 5),
        one(2, 6),
    ]
}

fn found(pivots: u32, additions: u32) -> Result<Report, Unfound> {
    Ok(Report { pivots, additions })
}

fn none(pivots: u32, additions: u32) -> Result<Report, Unfound> {
    Err(Unfound::NoCodeword(Report { pivots, additions }))
}

fn several(pivots: u32, additions: u32, free: u32) -> Result<Report, Unfound> {
    Err(Unfound::Several(Report { pivots, additions }, free))
}

fn all_are(words: &[u64], value: u64) -> bool {
    words.iter().all(|w| *w == value)
}

// Marks places as missing, and leaves ones in them.
fn lose(missing: &[usize], table: &mut [Bit], received: &mut [bool]) {
    for c in missing {
        if *c < table.len() && *c < received.len() {
            table[*c] = I;
            received[*c] = false;
        }
    }
}

// Searches with these places missing, which hold ones, in memory longer than needed and full of ones. The table is
// filled with what was sent, or else untouched, and just the memory that is needed is zero.
fn tells<P: Policy>(
    rt: &impl Abort,
    policy: &mut P,
    sent: &[Bit; 7],
    missing: &[usize],
    told: Result<Report, Unfound>,
) -> Result<(), Fail> {
    let records = records();
    let mut code = Listed::smallest();
    code.make(3, 7, &records)?;
    let mut before = *sent;
    let mut received = [true; 512];
    lose(missing, &mut before, &mut received);
    let mut table = before;
    let mut words = [1; 26];
    let mut sides = [I; 5];
    let answer = search(&code, policy, &mut table, &received, &mut words, &mut sides);
    assert_eq!(rt; answer, told);
    assert!(rt; all_are(&words[0..24], 0) && all_are(&words[24..26], 1));
    assert_eq!(rt; sides, [O, O, O, I, I]);
    let due = if told.is_ok() { *sent } else { before };
    assert_eq!(rt; table, due);
    Ok(())
}

#[test]
fn worked_examples(rt: HostRuntime) -> Result<(), Fail> {
    tells(&rt, &mut First, &SENT, &[], found(0, 0))?;
    tells(&rt, &mut First, &SENT, &[0, 2], found(0, 1))?;
    tells(&rt, &mut First, &SENT, &[2, 4, 6], found(1, 4))?;
    tells(&rt, &mut Heaviest, &SENT, &[2, 4, 6], found(1, 3))?;
    let mut component = Component { below: Heaviest };
    tells(&rt, &mut component, &SENT, &[2, 4, 6], found(1, 4))?;
    tells(&rt, &mut First, &SENT, &[0, 1, 2], several(1, 1, 1))?;
    let clashing = [O, O, O, I, O, O, O];
    tells(&rt, &mut First, &clashing, &[0, 1, 2], none(1, 1))?;
    let all = [0, 1, 2, 3, 4, 5, 6];
    tells(&rt, &mut First, &SENT, &all, several(5, 4, 4))?;
    tells(&rt, &mut First, &[I, I, I, O, O, O, I], &[], none(0, 0))
}

#[test]
fn refused_untouched(rt: HostRuntime) -> Result<(), Fail> {
    let records = records();
    let mut code = Listed::smallest();
    code.make(3, 7, &records)?;
    let mut table = SENT;
    let mut words = [1; 24];
    let mut sides = [I; 3];
    let received = [false; 512];
    let wide = search(
        &code,
        &mut First,
        &mut table[0..6],
        &received,
        &mut words[0..23],
        &mut sides,
    );
    assert_eq!(rt; wide, Err(Unfound::OtherWidth(7)));
    let short = search(
        &code,
        &mut First,
        &mut table,
        &received,
        &mut words[0..23],
        &mut sides,
    );
    assert_eq!(rt; short, Err(Unfound::ShortMemory(3)));
    assert_eq!(rt; table, SENT);
    assert_eq!(rt; sides, [I, I, I]);
    assert!(rt; all_are(&words, 1));
    Ok(())
}
