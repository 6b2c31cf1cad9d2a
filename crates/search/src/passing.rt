// The set of the numbers that pass a test.
ghost use Rattle.std.specs.Prelude.{◌≡◌, ℕ, ◌<◌, ◌≤◌, Bool, map};
ghost use Rattle.std.specs.List.{range_with_len};
ghost use Rattle.policies.specs.Shown.{shown};

use policies::Columns;

// The numbers below n that pass.
pub(crate) fn passing<F: Fn(usize) -> bool>(n: usize, test: F) -> Columns
    requires few { n ≤ 512 }
    requires callable { (c : ℕ) → c < n → F.pre test c }
    ensures { (t : ℕ → Bool) → ((c : ℕ) (b : Bool) → c < n → F.post test c b → b ≡ t c) → shown result ≡ map t (range_with_len 0 n) }
{
    let mut set = Columns::none(n);
    // Over the numbers, since they are what is tested and put in.
    for c in 0..n {
        set.turn(c, test(c));
    }
    set
}
