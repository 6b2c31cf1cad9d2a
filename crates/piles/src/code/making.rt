// Making the code at the bottom of a pile.
ghost use Rattle.std.specs.Prelude.{◌≡◌};
ghost use Rattle.piles.specs.Bases.{base_code, base_told};

use crate::base::Base;
use crate::code::BaseCode;
use codes::{Listed, Refusal};
use quasi_cyclic::QuasiCyclic;

impl<'a> BaseCode<'a> {
    // The code of a base, or why it gives none.
    pub(crate) fn of(base: &'a Base) -> Result<BaseCode<'a>, Refusal>
        ensures { base_told result ≡ base_code base.now }
    {
        match base {
            Base::Listed { m, n, records } => {
                let mut code = Listed::smallest();
                code.make(*m, *n, records.as_slice())?;
                Ok(BaseCode::Listed(code))
            }
            Base::Circulant { squares, entries } => {
                let mut code = QuasiCyclic::smallest();
                code.make(*squares, entries.as_slice())?;
                Ok(BaseCode::Circulant(code))
            }
        }
    }
}
