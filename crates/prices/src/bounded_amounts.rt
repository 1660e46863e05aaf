// What a resource is given by a certificate that is past 13: each amount is within its bound.
ghost use Rattle.prices.specs.Standing.{SmallAmounts};

use market::Amounts;

#[derive(Clone, Copy)]
pub struct BoundedAmounts {
    pub amounts: Amounts,
    pub ghost small: { SmallAmounts amounts },
}
