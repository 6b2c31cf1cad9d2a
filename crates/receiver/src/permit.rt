// The permit that a granted solve gives: plain numbers that can be read and never set. It has no Drop, so the compiler
// lets nobody let one go: a permit is spent by closing its block.
ghost use Rattle.std.specs.Prelude.{◌≡◌};

use crate::fault::Stamp;
use search::Report;

// Two numbers say whose it is, and accessors hand them out one by one; no equality, since the report is no part of that.
pub struct Permit {
    number: u32,
    stamp: Stamp,
    report: Report,
}

// A permit that was not the block's, given back with the block's stamp.
pub struct Unclosed {
    pub stamp: Stamp,
    pub permit: Permit,
}

impl Permit {
    pub(crate) fn new(number: u32, stamp: Stamp, report: Report) -> Permit
        ensures { result ≡ record { number = number; stamp = stamp; report = report } }
    {
        Permit {
            number,
            stamp,
            report,
        }
    }

    // Takes the permit apart; only a block that it belongs to does so.
    pub(crate) fn spend(self) {
        let Permit {
            number: _,
            stamp: _,
            report: _,
        } = self;
    }

    pub fn number(&self) -> u32
        ensures { result ≡ self.now.number }
    {
        self.number
    }

    pub fn stamp(&self) -> Stamp
        ensures { result ≡ self.now.stamp }
    {
        self.stamp
    }

    // As a search's `Found`, of its own field.
    pub fn report(&self) -> Report
        ensures { result ≡ self.now.report }
    {
        self.report
    }
}
