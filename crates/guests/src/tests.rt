// Bytes that were lost, at the edges.
use crate::byte::Byte;
use crate::parity::Parity;
use crate::restoring::restored;
use codes::Code;

fn byte(value: u8) -> Option<Byte> {
    Some(Byte { value })
}

#[test]
fn the_lost_byte_is_the_sum_of_the_others(rt: HostRuntime) {
    assert_eq!(rt; restored(&[byte(7), None, byte(12)], 1), byte(11));
    assert_eq!(rt; restored(&[byte(7), None, byte(12)], 2), byte(12));
    assert_eq!(rt; restored(&[None], 0), byte(0));
}

#[test]
fn nothing_is_told_that_is_not_settled(rt: HostRuntime) {
    assert_eq!(rt; restored(&[byte(7), None, None], 0), None, "two are lost");
    assert_eq!(rt; restored(&[byte(7), byte(7)], 0), byte(7));
    assert_eq!(rt; restored(&[byte(7), byte(8)], 0), None, "no sum of zero");
    assert_eq!(rt; restored(&[byte(7), byte(7)], 2), None, "no such place");
    assert_eq!(rt; restored(&[], 0), None);
    assert_eq!(rt; restored(&[byte(0); 513], 0), None, "too many");
    assert_eq!(rt; restored(&[byte(0); 512], 511), byte(0));
}

#[test]
fn one_row_of_all_columns(rt: HostRuntime) {
    assert!(rt; Parity::new(0).is_none() && Parity::new(513).is_none());
    if let Some(code) = Parity::new(512) {
        assert!(rt; code.holds(0, 511) && !code.holds(0, 512) && !code.holds(1, 0));
    }
}
