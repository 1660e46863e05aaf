// A case with a certificate that is past 13: its prices are in range, and every quantity is within its bound.
ghost use Rattle.std.specs.Prelude.{◌≡◌, ◌<◌};
ghost use Rattle.prices.specs.Standing.{Standing};
ghost use Rattle.prices.specs.Unique.{unique};

use crate::bounded_amounts::BoundedAmounts;
use crate::priced_case::PricedCase;

#[derive(Clone, Copy)]
pub struct BoundedCase<'a> {
    pub priced: PricedCase<'a>,
    pub ghost standing: { Standing priced.case.bytes.now priced.certificate.bytes.now priced.case.resources priced.case.zones priced.case.flowgates } by { Prim.hlevel unique },
}

impl<'a> BoundedCase<'a> {
    ghost use Rattle.market.specs.Records.{amounts_of};
    ghost use Rattle.prices.specs.PricedCase.{the_amounts};

    pub fn new(priced: PricedCase<'a>) -> Self
        requires { Standing priced.case.bytes.now priced.certificate.bytes.now priced.case.resources priced.case.zones priced.case.flowgates }
        ensures { result.priced ≡ priced.entry }
    {
        BoundedCase { priced }
    }

    // What resource i is given.
    pub fn amounts(&self, i: usize) -> BoundedAmounts
        requires { i < self.now.priced.case.resources }
        ensures { result.amounts ≡ amounts_of (the_amounts self.now.priced) i }
    {
        BoundedAmounts {
            amounts: self.priced.certificate.amounts(i),
        }
    }
}
