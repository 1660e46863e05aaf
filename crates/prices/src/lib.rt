// LMPs and zone prices of a certificate whose prices are in range.
#![tactic(auto)]

ghost use Rattle.std.specs.Prelude.{◌≡◌};
ghost use Rattle.prices.specs.ZonePrices.{SmallPrices, added_prices};

use market::{Millicents, ReservePrices};

mod bounded_amounts;
mod bounded_case;
mod priced_case;

pub use bounded_amounts::BoundedAmounts;
pub use bounded_case::BoundedCase;
pub use priced_case::PricedCase;

// ---- zone prices

// The prices of a zone, in the order in which they are written.
#[derive(Clone, Copy, Drop)]
pub struct ZonePrices {
    pub regulating: Millicents,
    pub spinning: Millicents,
    pub supplemental: Millicents,
    pub short_term: Millicents,
}

// Each market row plus zone row: regulating adds operating, regulating-plus-spinning and regulating; spinning the first
// two; supplemental the first; short-term its own.
fn added(m: ReservePrices, n: ReservePrices) -> ZonePrices
    requires { SmallPrices m × SmallPrices n }
    ensures { result ≡ added_prices m n }
{
    let supplemental = units::sum(m.operating, n.operating);
    let both = units::sum(m.regulating_plus_spinning, n.regulating_plus_spinning);
    let spinning = units::sum(supplemental, both);
    let own = units::sum(m.regulating, n.regulating);
    let regulating = units::sum(spinning, own);
    let short_term = units::sum(m.short_term, n.short_term);
    ZonePrices {
        regulating,
        spinning,
        supplemental,
        short_term,
    }
}
