// Net prices: 1000 × a quantity's offer less what the rows' prices take from it (01, 'Certificate, cost, bound, charges').
// A resource's reserves, the part of its energy's net price that all its steps share, an energy step, a curve step.
#![tactic(auto)]

ghost use Rattle.std.specs.Prelude.{◌≡◌, cond, ◌+◌, ◌*◌, ◌<◌, pos, ◌+ℤ◌, ◌-ℤ◌, ◌*ℤ◌};
ghost use Rattle.market.specs.Rows.{is_spinning};
ghost use Rattle.market.specs.Prices.{lmp_of};
ghost use Rattle.market.specs.Records.{record_of, millicents};
ghost use Rattle.market.specs.Sizes.{most_price, most_service_net, most_curve_net};
ghost use Rattle.market.specs.UpperBounds.{energy};
ghost use Rattle.units.specs.Sized.{Sized};
ghost use Rattle.net_prices.specs.NetPrices.{nets_of, nets_from, own_rows, reserve_net};
ghost use Rattle.net_prices.specs.Sizes.{SmallOffer, SmallPrice, SmallOffers, SmallLimitPrices, SmallZonePrices, SmallLmp, NetRoom};
ghost use Rattle.prices.specs.PricedCase.{the_case, the_prices};

use market::{Cents, LimitPrices, Millicents, PerService, ReserveOffers, Resource};
use prices::{PricedCase, ZonePrices};
use units::{sized_difference, sized_sum};

mod nets;

pub use nets::Nets;

// An offer in thousandths of a cent.
fn asked(offer: Cents) -> Millicents
    requires { SmallOffer offer }
    ensures { Sized result.0 (pos 1000 *ℤ offer.0) most_price }
{
    units::in_millicents(offer)
}

// ---- a step

// Of a resource's energy, at the step's offer.
pub fn step_net(nets: Nets, offer: Cents) -> Millicents
    requires { SmallOffer offer }
    ensures { Sized result.0 (pos 1000 *ℤ offer.0 +ℤ nets.prices.energy.0) (most_service_net energy) }
{
    let offered = asked(offer);
    sized_sum(offered, nets.prices.energy)
}

// Of a demand curve, whose market row has the price.
pub fn curve_net(price: Millicents, offer: Cents) -> Millicents
    requires { SmallPrice price × SmallOffer offer }
    ensures { Sized result.0 (price.0 -ℤ pos 1000 *ℤ offer.0) most_curve_net }
{
    let offered = asked(offer);
    sized_difference(price, offered)
}

// ---- a resource

// The prices of its own rows less its LMP.
fn energy_net(own: LimitPrices, lmp: Millicents) -> Millicents
    requires { SmallLimitPrices own × SmallLmp lmp }
    ensures { result ≡ millicents (own_rows own -ℤ lmp.0) }
{
    let upper = sized_sum(own.max_with_reserve, own.max_with_short_term);
    let ends = sized_difference(upper, own.minimum);
    let ramped = sized_sum(ends, own.high);
    let rows = sized_difference(ramped, own.low);
    sized_difference(rows, lmp)
}

// An offer against a price, with what the resource's own rows ask.
fn reserve_net(offer: Cents, price: Millicents, own: Millicents) -> Millicents
    requires { SmallOffer offer × NetRoom price own }
    ensures { result ≡ millicents (reserve_net offer.0 price.0 own.0) }
{
    let offered = asked(offer);
    let rest = sized_difference(offered, price);
    sized_sum(rest, own)
}

// Of contingency reserve: spinning, or supplemental.
fn contingency_price(spins: bool, prices: ZonePrices) -> Millicents
    ensures { result ≡ cond spins prices.spinning prices.supplemental }
{
    if spins {
        return prices.spinning;
    }
    prices.supplemental
}

// All five, from what is read of the resource.
fn nets_of(
    offers: ReserveOffers,
    spins: bool,
    own: LimitPrices,
    lmp: Millicents,
    prices: ZonePrices,
) -> PerService<Millicents>
    requires { SmallOffers offers × (SmallLimitPrices own × (SmallLmp lmp × SmallZonePrices prices)) }
    ensures { result ≡ nets_from offers spins own lmp prices }
{
    let both = sized_sum(own.max_with_reserve, own.minimum);
    let counted = contingency_price(spins, prices);
    let offered = asked(offers.off_line_short_term);
    PerService {
        energy: energy_net(own, lmp),
        regulation: reserve_net(offers.regulating, prices.regulating, both),
        contingency: reserve_net(offers.contingency, counted, own.max_with_reserve),
        on_line_short_term: sized_difference(own.max_with_short_term, prices.short_term),
        off_line_short_term: sized_difference(offered, prices.short_term),
    }
}

// The net prices of resource i, whose record has been read; `spins` is whether its contingency reserve is spinning, `lmp` its LMP.
// `lmp_value` stands in four contracts, here and in `charges` and `valuations`, and no struct carries it. It would have to hold the
// reader that the fact is about, a `PricedCase` here and a `KeptCase` there: two structs, or a clause in each of the four that its
// files are those of the reader beside it.
pub fn nets_for(
    priced: &PricedCase<'_>,
    i: usize,
    spins: bool,
    lmp: Millicents,
    resource: Resource,
) -> Nets
    requires resource { (i < priced.now.case.resources) × ((spins ≡ is_spinning ((the_case priced.now).resource i)) × (resource ≡ record_of ((the_case priced.now).resource i))) }
    requires lmp_value { lmp ≡ millicents (lmp_of (the_case priced.now) (the_prices priced.now) i) }
    ensures { result.prices ≡ nets_of (the_case priced.now) (the_prices priced.now) i }
{
    let state = resource.state;
    let zone = usize::from(state.zone) - 1;
    let own = priced.certificate.limit_prices(i);
    let prices = priced.zone_prices(zone);
    Nets {
        prices: nets_of(resource.offers, spins, own, lmp, prices),
    }
}
