// The questions to a quasi-cyclic code, answered from the line of squares that holds the row.
ghost use Rattle.std.specs.Prelude.{◌≡◌, ℕ, ◌*◌, ◌<◌, ◌≤◌, true, length, pos, slice_index_or};
ghost use Rattle.std.specs.List.{slice_get};
ghost use Rattle.codes.specs.Matrix.{height, ones};
ghost use Rattle.quasi_cyclic.specs.Circulants.{circulant_matrix};
ghost use Rattle.quasi_cyclic.specs.Entries.{line_row, entry_fits};
ghost use Rattle.quasi_cyclic.specs.EntryLaws.{circulant_lawful};
ghost use Rattle.quasi_cyclic.specs.Lines.{Line};

use crate::circulant::QuasiCyclic;
use crate::entries::{filled_squares, shift, turned};
use codes::{Code, Rows, Shape, Squares};

// The column at place i of what row r holds of a line of squares. The squares before it are only counted, since a column takes
// two divisions. By a loop, which takes fewer steps for each of them than `filter` and `nth`.
fn pick(line: &[i16], z: usize, r: usize, i: usize) -> Option<usize>
    requires small { z ≤ 512 }
    requires within { length line.now * z ≤ 512 }
    requires right { (k : ℕ) → k < length line.now → entry_fits z (slice_index_or line.now k (pos 0)) ≡ true }
    ensures { result ≡ slice_get (line_row z r 0 line.now) i }
{
    let mut left = i;
    for (j, e) in line.iter().enumerate() {
        if let Some(s) = shift(*e) {
            if left == 0 {
                return Some(j * z + turned(z, r, usize::from(s)));
            }
            left -= 1;
        }
    }
    None
}

impl<'a> QuasiCyclic<'a> {
    // The base entries of the squares that hold row r, none where r is no row. By a range, since `chunks(b).nth(r / z)` walks
    // over the lines before: with 16 lines a question took 25.4 ns for 21.0, with 256 lines 242 ns for 1.
    fn line(&self, r: usize) -> &'a [i16]
        ensures { Line self.now.squares.a self.now.squares.b self.now.squares.z self.now.entries.now r result.now }
    {
        let Squares { a, b, z } = self.squares;
        if r >= a * z {
            return &[];
        }
        let first = r / z * b;
        let end = first + b;
        &self.entries[first..end]
    }
}

impl<'a> Rows for QuasiCyclic<'a> {
    ghost matrix = { λ k. circulant_matrix k };

    ghost lawful = { λ k. circulant_lawful k.squares.a k.squares.b k.squares.z k.ones k.entries.now k.sized k.counted k.few };

    fn shape(&self) -> Shape {
        let Squares { a, b, z } = self.squares;
        Shape {
            rows: a * z,
            columns: b * z,
            ones: self.ones,
        }
    }

    fn weight(&self, r: usize) -> usize {
        filled_squares(self.line(r))
    }

    fn column(&self, r: usize, i: usize) -> Option<usize> {
        pick(self.line(r), self.squares.z, r, i)
    }
}

impl<'a> Code for QuasiCyclic<'a> {
    // By the one square that column c crosses in the line of row r, not by a walk along the row.
    fn holds(&self, r: usize, c: usize) -> bool {
        let line = self.line(r);
        let z = self.squares.z;
        let Some(e) = line.get(c / z) else {
            return false;
        };
        let Some(s) = shift(*e) else {
            return false;
        };
        turned(z, r, usize::from(s)) == c % z
    }
}
