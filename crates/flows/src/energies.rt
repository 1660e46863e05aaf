// A case with a certificate that is past 13, with the two parts of each resource's energy. Their array is one of the caller's own
// stack: with no heap, what borrows it can be handed to a function and not out of one, so that `rows` and `row_charges` both fill one.
ghost use Rattle.std.specs.Prelude.{◌≡◌};
ghost use Rattle.prices.specs.PricedCase.{certificate_bytes};
ghost use Rattle.flows.specs.Parts.{EnergyParts};

use crate::EnergyInParts;
use prices::BoundedCase;

#[derive(Clone, Copy)]
pub struct Energies<'a> {
    pub bounded: BoundedCase<'a>,
    pub parts: &'a [EnergyInParts],
    pub ghost energy_parts: { EnergyParts (certificate_bytes bounded.priced) bounded.priced.case.resources parts.now },
}

impl<'a> Energies<'a> {
    pub fn new(bounded: BoundedCase<'a>, parts: &'a [EnergyInParts]) -> Self
        requires { EnergyParts (certificate_bytes bounded.priced) bounded.priced.case.resources parts.now }
        ensures bounded { result.bounded ≡ bounded.entry }
        ensures parts { result.parts ≡ parts.entry }
    {
        Energies { bounded, parts }
    }
}
