// A set of the numbers below a width of at most 512.
ghost use Rattle.std.specs.Prelude.{◌≡◌, ℕ, ◌≤◌, false, length};
ghost use Rattle.bits.specs.Sets.{holds};

// Bit c % 64 of word c / 64 says whether c is in the set. Plain fields and no model, since a search works on the words.
#[derive(Clone, Copy, PartialEq, Eq, Debug)]
pub struct Columns {
    pub words: [u64; 8],
    pub width: usize,
    ghost eight: { length words ≡ 8 },
    ghost narrow: { width ≤ 512 },
    ghost within: { (c : ℕ) → width ≤ c → holds words c ≡ false },
}
