// What the definitions of layers give, as theorems.
ghost use Rattle.std.specs.Prelude.{◌≡◌, ℕ, true};
ghost use Rattle.codes.specs.Matrix.{Matrix};
ghost use Rattle.codes.specs.Shapes.{shape_of};
ghost use Rattle.layers.specs.Layers.{squares_fit, stack_fits};
ghost use Rattle.layers.specs.Permutations.{Interleaving, InterleavedCodewords, StackedCodewords};

use symbols::Symbol;

// An interleaved code is the code below with its rows and its columns permuted, and read back through the permutations it is that code.
pub fn interleaving_permutes() -> u8
    ensures { (a b z : ℕ) (k : Matrix) → squares_fit a b z (shape_of k) ≡ true → Interleaving a b z k }
{
    0
}

// The codewords of an interleaved code are the permuted codewords of the code below, for every kind of symbol.
pub fn interleaved_codewords<S: Symbol>() -> u8
    ensures { (a b z : ℕ) (k : Matrix) → squares_fit a b z (shape_of k) ≡ true → InterleavedCodewords S.Symbol.kind a b z k }
{
    0
}

// The codewords of a stacked code are those that both of its codes have, for every kind of symbol.
pub fn stacked_codewords<S: Symbol>() -> u8
    ensures { (k l : Matrix) → stack_fits k l ≡ true → StackedCodewords S.Symbol.kind k l }
{
    0
}
