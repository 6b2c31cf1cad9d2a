// How many active columns each row has, and the unused rows with just one.
ghost use Rattle.std.specs.Prelude.{◌≡◌, length};

use policies::Columns;

// The set stands beside the counts, since each step asks for the lowest ready row.
#[derive(Clone, Copy, PartialEq, Eq, Debug)]
pub struct Tally {
    pub counts: [u16; 256],
    pub ready: Columns,
    ghost room: { length counts ≡ 256 },
}
