// The edges of a listed code: what its making refuses, and what it then answers.
use crate::code::{Code, Rows};
use crate::listed::Listed;
use crate::record::Record;
use crate::refusal::Refusal;
use std::test::Fail;

fn one(row: u16, column: u16) -> Record {
    Record { row, column }
}

// What a making of these sizes and records is refused by, if it is.
fn refusal(m: usize, n: usize, records: &[Record]) -> Option<Refusal> {
    let mut code = Listed::smallest();
    code.make(m, n, records).err()
}

#[test]
fn refused_by_its_sizes(rt: HostRuntime) {
    assert_eq!(rt; refusal(0, 7, &[]), Some(Refusal::BadShape));
    assert_eq!(rt; refusal(257, 7, &[]), Some(Refusal::BadShape));
    assert_eq!(rt; refusal(3, 513, &[one(9, 0)]), Some(Refusal::BadShape));
    assert_eq!(rt; refusal(256, 512, &[one(255, 511)]), None);
}

#[test]
fn refused_by_a_record(rt: HostRuntime) {
    assert_eq!(rt;
        refusal(3, 7, &[one(0, 6), one(3, 0)]),
        Some(Refusal::BadEntry(1))
    );
    assert_eq!(rt; refusal(3, 7, &[one(0, 7)]), Some(Refusal::BadEntry(0)));
    assert_eq!(rt;
        refusal(3, 7, &[one(1, 0), one(1, 4), one(0, 5)]),
        Some(Refusal::BadEntry(2))
    );
    assert_eq!(rt;
        refusal(3, 7, &[one(1, 4), one(1, 4)]),
        Some(Refusal::BadEntry(1))
    );
}

#[test]
fn refused_by_too_many_ones(rt: HostRuntime) {
    let mut records = [one(0, 0); 4097];
    for (i, k) in records.iter_mut().enumerate() {
        *k = one((i / 512) as u16, (i % 512) as u16);
    }
    assert_eq!(rt; refusal(256, 512, &records[0..4096]), None);
    assert_eq!(rt; refusal(256, 512, &records), Some(Refusal::BadShape));
    records[4096] = one(0, 0);
    assert_eq!(rt; refusal(256, 512, &records), Some(Refusal::BadEntry(4096)));
}

#[test]
fn read_by_rows(rt: HostRuntime) -> Result<(), Fail> {
    let records = [one(0, 2), one(0, 6), one(2, 0)];
    let wrong = [one(2, 7)];
    let mut code = Listed::smallest();
    code.make(3, 7, &records)?;
    assert_eq!(rt;
        (
            code.weight(0),
            code.weight(1),
            code.weight(2),
            code.weight(3),
        ),
        (2, 0, 1, 0)
    );
    assert_eq!(rt;
        (code.column(0, 1), code.column(0, 2), code.column(1, 0)),
        (Some(6), None, None)
    );
    let mut row = code.row(0);
    assert_eq!(rt;
        (row.next(), row.next(), row.next()),
        (Some(2), Some(6), None)
    );
    assert_eq!(rt; code.row(3).next(), None);
    assert!(rt; code.holds(2, 0) && !code.holds(2, 2) && !code.holds(1, 0));
    assert_eq!(rt; code.make(3, 7, &wrong), Err(Refusal::BadEntry(0)));
    assert_eq!(rt;
        code.column(0, 0),
        Some(2),
        "a refused making leaves the code"
    );
    Ok(())
}
