// Sets of columns at their edges, and what the policies name for small codes, ties among them.
ghost use Rattle.std.specs.Prelude.{true};
ghost use Rattle.method.specs.Choices.{first};
ghost use Rattle.method.proofs.Tops.{first_names};

use crate::columns::Columns;
use crate::component::Component;
use crate::first::First;
use crate::heaviest::Heaviest;
use crate::policy::Policy;
use codes::{Code, Listed, Record};
use std::test::Fail;

// A policy of one's own: it names as the first does, and remembers that it was asked.
#[derive(Clone, Copy, PartialEq, Eq, Debug)]
struct Watched {
    asked: bool,
}

impl Policy for Watched {
    ghost choice = { λ k p a u. (first a, record { asked = true }) };

    ghost names = { λ k p a u. first_names a };

    fn name<C: Code>(&mut self, code: &C, active: &Columns, unused: &Columns) -> Option<usize> {
        self.asked = true;
        active.least()
    }
}

fn one(row: u16, column: u16) -> Record {
    Record { row, column }
}

fn of(width: usize, numbers: &[usize]) -> Columns {
    let mut set = Columns::none(width);
    for c in numbers {
        set.put(*c);
    }
    set
}

#[test]
fn sets_at_their_edges(rt: HostRuntime) {
    let mut set = Columns::all(600);
    assert!(rt; set.width == 512 && set.has(511) && !set.has(512));
    set.leave(511);
    set.put(512);
    assert!(rt; !set.has(511) && !set.has(512));
    assert_eq!(rt; of(7, &[6, 4]).least(), Some(4));
    assert_eq!(rt; Columns::none(7).least(), None);
}

#[test]
fn members_rise(rt: HostRuntime) {
    let set = of(300, &[130, 299, 0, 63]);
    let mut members = set.iter();
    assert_eq!(rt; members.next(), Some(0));
    assert_eq!(rt; members.next(), Some(63));
    assert_eq!(rt; members.next(), Some(130));
    assert_eq!(rt; members.next(), Some(299));
    assert_eq!(rt; members.next(), None);
    assert_eq!(rt; members.next(), None);
    let mut last = 0;
    for c in &set {
        last = c;
    }
    assert_eq!(rt; last, 299);
}

#[test]
fn weights_of_unused_rows(rt: HostRuntime) -> Result<(), Fail> {
    let records = [
        one(0, 0),
        one(0, 2),
        one(1, 1),
        one(1, 2),
        one(2, 0),
        one(2, 1),
    ];
    let mut code = Listed::smallest();
    code.make(3, 4, &records)?;
    let active = of(4, &[1, 2, 3]);
    assert_eq!(rt;
        Heaviest.name(&code, &active, &Columns::all(3)),
        Some(1),
        "the lowest of two columns of weight two"
    );
    assert_eq!(rt; Heaviest.name(&code, &active, &of(3, &[0, 1])), Some(2));
    assert_eq!(rt; Heaviest.name(&code, &active, &of(3, &[])), Some(1));
    assert_eq!(rt;
        Heaviest.name(&code, &of(9, &[3, 8]), &Columns::all(300)),
        Some(3)
    );
    assert_eq!(rt; Heaviest.name(&code, &of(4, &[]), &Columns::all(3)), None);
    Ok(())
}

#[test]
fn largest_joined_set(rt: HostRuntime) -> Result<(), Fail> {
    let records = [
        one(0, 4),
        one(0, 5),
        one(1, 1),
        one(1, 3),
        one(2, 2),
        one(2, 5),
    ];
    let mut code = Listed::smallest();
    code.make(3, 6, &records)?;
    let mut policy = Component { below: Heaviest };
    let all = Columns::all(6);
    assert_eq!(rt; policy.name(&code, &all, &Columns::all(3)), Some(2));
    assert_eq!(rt;
        policy.name(&code, &all, &of(3, &[0, 1])),
        Some(1),
        "the lower of two pairs"
    );
    assert_eq!(rt; policy.name(&code, &all, &of(3, &[0])), Some(4));
    assert_eq!(rt;
        policy.name(&code, &of(9, &[3, 5, 8]), &Columns::all(300)),
        Some(5),
        "heaviest"
    );
    Ok(())
}

#[test]
fn asked_without_a_pair_only(rt: HostRuntime) -> Result<(), Fail> {
    let records = [one(0, 1), one(0, 2), one(1, 0), one(1, 1), one(1, 3)];
    let mut code = Listed::smallest();
    code.make(2, 4, &records)?;
    let all = Columns::all(4);
    let mut policy = Component {
        below: Component {
            below: Watched { asked: false },
        },
    };
    assert_eq!(rt; policy.name(&code, &all, &Columns::all(2)), Some(1));
    assert!(rt; !policy.below.below.asked);
    assert_eq!(rt; policy.name(&code, &all, &of(2, &[1])), Some(0));
    assert!(rt; policy.below.below.asked);
    Ok(())
}
