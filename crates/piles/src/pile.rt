// A pile of layers over codes, by what it is made of.
use crate::base::Base;
use codes::Squares;

#[derive(Drop, PartialEq, Eq, Debug)]
pub enum Pile {
    Single(Base),
    Interleaved(Squares, Base),
    Stacked(Base, Base),
    // The first code of the stack is interleaved.
    InterleavedInStack(Squares, Base, Base),
    // The whole stack is interleaved.
    InterleavedStack(Squares, Base, Base),
}
