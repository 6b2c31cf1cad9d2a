// What was heard of a codeword: its code, a table, and which of the table's places were received.
ghost use Rattle.std.specs.Prelude.{◌≡◌, length};

use codes::{Code, Rows};

// No equality, since it holds what the caller lends.
#[derive(Drop)]
pub struct Heard<'t, S, C: Code> {
    pub code: &'t C,
    pub table: &'t [S],
    pub received: &'t [bool; 512],
    ghost each: { length received.now ≡ 512 },
    ghost wide: { length table.now ≡ (C.Rows.matrix code.now).width },
}
