// The numbers of the call for prices, written into a lent buffer: R LMPs, then four prices for each zone. What stands
// beyond them stays as it was.
#![tactic(auto)]

ghost use Rattle.std.specs.Prelude.{◌≡◌, ◌++◌, ◌*◌, ◌≤◌, length, drop};
ghost use Rattle.arith.specs.Sums.{upto, across};
ghost use Rattle.market.specs.Prices.{zone_prices, price_list, zone_price_count, price_count, price_count_of};
ghost use Rattle.price_list.specs.Numbers.{numbers_of};
ghost use Rattle.prices.specs.PricedCase.{the_case, the_prices};

use market::ZONE_PRICES;
use prices::{BoundedCase, PricedCase, ZonePrices};

// A zone's regulating, spinning, supplemental and short-term price.
fn write_zone(p: ZonePrices, out: &mut [i64])
    requires { zone_price_count ≤ length out.old }
    ensures { out.new ≡ numbers_of p ++ drop zone_price_count out.old }
{
    let numbers = [
        p.regulating.0,
        p.spinning.0,
        p.supplemental.0,
        p.short_term.0,
    ];
    out[..ZONE_PRICES].copy_from_slice(&numbers);
}

// Each zone's prices, from its own place on. The loops of row_charges and charges that write block behind block stay beside this one: one
// function for all would take a block as a closure, and have to say of each, by its `pre` and `post`, what is said of them in one clause.
fn write_zones(priced: &PricedCase<'_>, out: &mut [i64])
    requires { zone_price_count * priced.now.case.zones ≤ length out.old }
    ensures { out.new ≡ across (zone_prices (the_prices priced.now)) (upto priced.now.case.zones) ++ drop (zone_price_count * priced.now.case.zones) out.old }
{
    for zone in 0..priced.case.zones {
        let p = priced.zone_prices(zone);
        write_zone(p, &mut out[ZONE_PRICES * zone..]);
    }
}

pub fn write_prices(bounded: &BoundedCase<'_>, out: &mut [i64])
    requires { price_count_of bounded.now.priced.case.resources bounded.now.priced.case.zones ≤ length out.old }
    ensures { out.new ≡ price_list (the_case bounded.now.priced) (the_prices bounded.now.priced) ++ drop (price_count (the_case bounded.now.priced)) out.old }
{
    bounded.priced.write_lmps(out);
    write_zones(&bounded.priced, &mut out[bounded.priced.case.resources..]);
}
