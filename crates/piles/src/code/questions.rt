// The questions to the code at the bottom of a pile.
ghost use Rattle.piles.specs.Bases.{base_matrix, base_lawful};

use crate::code::BaseCode;
use codes::{Code, Rows, Shape};

impl<'a> Rows for BaseCode<'a> {
    ghost matrix = { λ k. base_matrix k };

    ghost lawful = { λ k. base_lawful k };

    fn shape(&self) -> Shape {
        match self {
            BaseCode::Listed(code) => code.shape(),
            BaseCode::Circulant(code) => code.shape(),
        }
    }

    fn weight(&self, r: usize) -> usize {
        match self {
            BaseCode::Listed(code) => code.weight(r),
            BaseCode::Circulant(code) => code.weight(r),
        }
    }

    fn column(&self, r: usize, i: usize) -> Option<usize> {
        match self {
            BaseCode::Listed(code) => code.column(r, i),
            BaseCode::Circulant(code) => code.column(r, i),
        }
    }
}

impl<'a> Code for BaseCode<'a> {}
