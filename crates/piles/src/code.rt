// One type for the codes at the bottom of a pile, so that a pile of one shape is of one type.
use codes::Listed;
use quasi_cyclic::QuasiCyclic;

mod making;
mod questions;

#[derive(Clone, Copy, PartialEq, Eq, Debug)]
pub(crate) enum BaseCode<'a> {
    Listed(Listed<'a>),
    Circulant(QuasiCyclic<'a>),
}
