// What a search found where just one codeword agrees: its report, and for each column the row used for it.
ghost use Rattle.std.specs.Prelude.{◌≡◌, length};

use crate::answer::Report;

// An array, since a search allocates nothing.
#[derive(Clone, Copy, PartialEq, Eq, Debug)]
pub struct Found {
    pub(crate) report: Report,
    pub(crate) rows: [Option<u8>; 512],
    ghost each: { length rows ≡ 512 },
}
