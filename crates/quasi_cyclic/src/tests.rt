// The edges of a quasi-cyclic code: what its making refuses, and what it then answers.
use crate::circulant::QuasiCyclic;
use codes::{Code, Refusal, Rows, Squares};
use std::test::Fail;

// What a making of these sizes and entries is refused by, if it is.
fn refusal(a: usize, b: usize, z: usize, entries: &[i16]) -> Option<Refusal> {
    let mut code = QuasiCyclic::smallest();
    code.make(Squares { a, b, z }, entries).err()
}

#[test]
fn refused_by_its_sizes(rt: HostRuntime) {
    assert_eq!(rt; refusal(65535, 65535, 65535, &[0]), Some(Refusal::BadShape));
    assert_eq!(rt; refusal(1, 1, 0, &[-1]), Some(Refusal::BadShape));
    assert_eq!(rt; refusal(1, 2, 3, &[1, 0, 7]), Some(Refusal::BadShape));
    assert_eq!(rt; refusal(1, 1, 257, &[7]), Some(Refusal::BadShape));
    assert_eq!(rt; refusal(1, 2, 256, &[7, 255]), None);
}

#[test]
fn refused_by_an_entry(rt: HostRuntime) {
    assert_eq!(rt; refusal(1, 2, 3, &[2, -1]), None);
    assert_eq!(rt; refusal(1, 2, 3, &[2, 3]), Some(Refusal::BadEntry(1)));
    assert_eq!(rt; refusal(1, 2, 3, &[-2, 3]), Some(Refusal::BadEntry(0)));
}

#[test]
fn refused_by_too_many_ones(rt: HostRuntime) {
    let entries = [0; 272];
    assert_eq!(rt; refusal(16, 16, 16, &entries[0..256]), None);
    assert_eq!(rt; refusal(16, 17, 16, &entries), Some(Refusal::BadShape));
}

#[test]
fn read_by_rows(rt: HostRuntime) -> Result<(), Fail> {
    let mut code = QuasiCyclic::smallest();
    code.make(Squares { a: 1, b: 2, z: 3 }, &[1, 0])?;
    assert_eq!(rt;
        (code.column(0, 0), code.column(0, 1), code.column(0, 2)),
        (Some(1), Some(3), None)
    );
    assert_eq!(rt; (code.column(1, 0), code.column(1, 1)), (Some(2), Some(4)));
    assert_eq!(rt; (code.column(2, 0), code.column(2, 1)), (Some(0), Some(5)));
    assert!(rt; code.holds(2, 5) && !code.holds(0, 0) && !code.holds(3, 0));
    code.make(Squares { a: 3, b: 1, z: 1 }, &[-1, 0, -1])?;
    assert_eq!(rt;
        (
            code.weight(0),
            code.weight(1),
            code.weight(2),
            code.weight(3),
        ),
        (0, 1, 0, 0)
    );
    assert_eq!(rt; code.column(1, 0), Some(0));
    Ok(())
}

#[test]
fn held_by_the_square_crossed(rt: HostRuntime) -> Result<(), Fail> {
    let mut code = QuasiCyclic::smallest();
    code.make(Squares { a: 2, b: 2, z: 3 }, &[1, -1, -1, 2])?;
    assert!(rt; code.holds(0, 1) && code.holds(2, 0) && code.holds(3, 5) && code.holds(4, 3));
    assert!(rt; !code.holds(0, 2) && !code.holds(0, 4) && !code.holds(3, 2) && !code.holds(4, 5));
    assert!(rt;
        !code.holds(0, 6) && !code.holds(5, 65535) && !code.holds(6, 0) && !code.holds(65535, 1)
    );
    Ok(())
}
