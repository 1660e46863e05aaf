// A resource's net prices, small enough for what is made of them.
ghost use Rattle.net_prices.specs.Sizes.{SmallNets};

use market::{Millicents, PerService};

// Energy is without an offer: `step_net` adds a step's.
#[derive(Clone, Copy)]
pub struct Nets {
    pub prices: PerService<Millicents>,
    pub ghost small: { SmallNets prices },
}
