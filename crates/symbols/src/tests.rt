// Each kind on a few values, and sums over places.
use crate::kinds::{Bit, Cell, Dated, Word};
use crate::sums::sum_at;
use crate::symbol::Symbol;

// Bytes 1, 2, 3 and so on.
fn rising() -> [u8; 64] {
    std::array::from_fn(|i| i as u8 + 1)
}

#[test]
fn bits_sum_to_zero_and_one(rt: HostRuntime) {
    let one = Bit::One;
    let mut x = Bit::Zero;
    x.add(&one);
    assert_eq!(rt; x, Bit::One);
    assert!(rt; !x.is_zero());
    x.add(&one);
    assert_eq!(rt; x, Bit::Zero);
    assert!(rt; x.is_zero());
}

#[test]
fn words_differ_bit_by_bit(rt: HostRuntime) {
    let mut x = Word { value: 0xffff_0000 };
    x.add(&Word { value: 0x0ff0_0ff0 });
    assert_eq!(rt; x.value, 0xf00f_0ff0);
    assert!(rt; !<Word as Symbol>::unit().is_zero());
    assert!(rt; <Word as Symbol>::zero().is_zero());
}

#[test]
fn a_cell_with_itself_is_zero_in_every_byte(rt: HostRuntime) {
    let x = Cell::new(rising());
    let mut sum = x;
    sum.add(&x);
    for (i, (byte, summed)) in x.bytes.iter().zip(&sum.bytes).enumerate() {
        assert_eq!(rt; usize::from(*byte), i + 1);
        assert_eq!(rt; *summed, 0);
    }
    assert!(rt; sum.is_zero());
    assert!(rt; !x.is_zero());
}

#[test]
fn a_cell_is_not_zero_by_its_last_byte(rt: HostRuntime) {
    let mut x = <Cell as Symbol>::zero();
    assert!(rt; x.is_zero());
    x.bytes[63] = 128;
    assert!(rt; !x.is_zero());
}

#[test]
fn a_dated_cell_sums_in_both_parts(rt: HostRuntime) {
    let unit: Dated = <Dated as Symbol>::unit();
    let unit_byte = unit.first.bytes[0];
    assert_eq!(rt; unit_byte, 1);
    assert_eq!(rt; unit.second.value, 0);
    let mut x = Dated {
        first: Cell::new(rising()),
        second: Word { value: 9 },
    };
    x.add(&unit);
    let (byte, next_byte) = (x.first.bytes[0], x.first.bytes[1]);
    assert_eq!(rt; byte, 0);
    assert_eq!(rt; next_byte, 2);
    assert_eq!(rt; x.second.value, 9);
    assert!(rt; !x.is_zero());
}

#[test]
fn a_row_sums_its_columns_and_no_more(rt: HostRuntime) {
    let table = [Word { value: 1 }, Word { value: 2 }, Word { value: 4 }];
    assert_eq!(rt; sum_at(&table, &[2, 0]).value, 5);
    assert_eq!(rt; sum_at(&table, &[0, 2, 3, 65535]).value, 5);
    assert_eq!(rt; sum_at(&table, &[1, 1]).value, 0);
}

#[test]
fn cells_and_pairs_compare(rt: HostRuntime) {
    let (x, y) = (Cell::new([7; 64]), Cell::new([0; 64]));
    assert!(rt; x == Cell::new([7; 64]) && x != y);
    let dated = |cell, value| Dated {
        first: cell,
        second: Word { value },
    };
    assert!(rt;
        dated(x, 3) == dated(x, 3) && dated(x, 3) != dated(x, 4) && dated(x, 3) != dated(y, 3)
    );
}
