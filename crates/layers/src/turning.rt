// The order of places that interleaving makes.
ghost use Rattle.std.specs.Prelude.{◌≡◌, ◌*◌, ◌≤◌};
ghost use Rattle.layers.specs.Layers.{turn};

// Place x * q + y becomes place x + y * p, for the places below p * q.
pub(crate) fn turn(p: usize, q: usize, i: usize) -> usize
    requires { p * q ≤ 512 }
    ensures { result ≡ turn p q i }
{
    if i < p * q { i / q + i % q * p } else { i }
}
