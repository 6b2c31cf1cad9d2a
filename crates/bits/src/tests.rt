// Edges of the words, the walk over a set, and rows in a slice that ends early.
use crate::column::holders;
use crate::find::{alone, count, least, next};
use crate::row::{add_row, line_at, put_line, row_has, wipe};
use crate::set::{flip, has, put, shared};

#[test]
fn a_set_ends_at_511(rt: HostRuntime) {
    let mut set = [0; 8];
    put(&mut set, 63);
    put(&mut set, 511);
    put(&mut set, 512);
    assert!(rt; has(&set, 63) && has(&set, 511));
    assert!(rt; !has(&set, 64) && !has(&set, 512));
    assert_eq!(rt; count(&set), 2);
    flip(&mut set, 63);
    flip(&mut set, 512);
    assert_eq!(rt; alone(&set), Some(511));
}

#[test]
fn a_walk_meets_every_member(rt: HostRuntime) {
    let set = [1, 0, 1 << 63, 3, 0, 0, 0, 0];
    assert_eq!(rt; least(&set), Some(0));
    assert_eq!(rt; next(&set, 1), Some(191));
    assert_eq!(rt; next(&set, 191), Some(191));
    assert_eq!(rt; next(&set, 193), Some(193));
    assert_eq!(rt; next(&set, 194), None);
    assert_eq!(rt; alone(&set), None);
    assert_eq!(rt; least(&shared(&set, &[0, 0, 0, 2, 0, 0, 0, 0])), Some(193));
}

#[test]
fn rows_stand_apart(rt: HostRuntime) {
    let mut words = [0; 20];
    put_line(&mut words, 0, &[5; 8]);
    put_line(&mut words, 1, &[6; 8]);
    put_line(&mut words, 2, &[7; 8]);
    add_row(&mut words, 1, 0);
    assert_eq!(rt; words[7], 5);
    assert_eq!(rt; words[8], 3);
    assert_eq!(rt; words[16], 0);
    assert!(rt; row_has(&words, 1, 65) && !row_has(&words, 1, 66));
    assert_eq!(rt; least(&line_at(&words, 2)), None);
    wipe(&mut words);
    assert_eq!(rt; words[15], 0);
}

#[test]
fn a_column_of_rows(rt: HostRuntime) {
    // Nineteen rows and three words of another: two eights, and three rows after them.
    let mut words = [0; 155];
    for r in [0, 7, 8, 18] {
        put_line(&mut words, r, &[0, 2, 0, 0, 0, 0, 0, 1 << 63]);
    }
    words[153] = 2;
    let rows = holders(&words, 65);
    assert_eq!(rt; count(&rows), 4);
    assert!(rt; has(&rows, 0) && has(&rows, 7) && has(&rows, 8) && has(&rows, 18));
    assert_eq!(rt; holders(&words, 511), rows);
    assert_eq!(rt; least(&holders(&words, 64)), None);
    assert_eq!(rt; least(&holders(&words, 512)), None);
    assert_eq!(rt; least(&holders(&[], 0)), None);
    // No more than the first 512 rows.
    let many = [1; 4104];
    assert_eq!(rt; count(&holders(&many, 0)), 512);
}
