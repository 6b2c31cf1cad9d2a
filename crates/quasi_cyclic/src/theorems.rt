// What the definition of a quasi-cyclic code gives, as a theorem.
ghost use Rattle.std.specs.Prelude.{◌≡◌, ℕ, true, List, length, ℤ};
ghost use Rattle.quasi_cyclic.specs.Entries.{base_fits};
ghost use Rattle.quasi_cyclic.specs.SquareRows.{OneToASquare};

// A row holds exactly one column of each square that is not empty, and none of an empty one.
pub fn one_column_to_a_square() -> u8
    ensures { (a b z : ℕ) (es : List ℤ) → base_fits a b z (length es) ≡ true → OneToASquare a b z es }
{
    0
}
