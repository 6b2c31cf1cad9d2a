// The edges of a line's only word.
use crate::word::only_word;

#[test]
fn alone_on_its_line(rt: HostRuntime) {
    assert_eq!(rt; only_word(b"7"), Some(b"7".as_slice()));
    assert_eq!(rt; only_word(b" \tword\r"), Some(b"word".as_slice()));
    assert_eq!(rt; only_word(b"+ "), Some(b"+".as_slice()));
}

#[test]
fn none_on_a_blank_line(rt: HostRuntime) {
    assert_eq!(rt; only_word(b""), Some(b"".as_slice()));
    assert_eq!(rt; only_word(b" \t\r"), Some(b"".as_slice()));
}

#[test]
fn before_another(rt: HostRuntime) {
    assert_eq!(rt; only_word(b"7 8"), None);
    assert_eq!(rt; only_word(b" 7\t\t8"), None);
    assert_eq!(rt; only_word(b"7 \r#"), None);
}
