// What the resources add to the cost and to the bound of a standing certificate, in one pass (01, 'Certificate, cost, bound,
// charges'): each record, its steps and its entry of the certificate are read once for both. LMPs are worked out before, a
// flowgate at a time; what is decided of a resource is read out of what was kept.
#![tactic(auto)]

ghost use Rattle.std.specs.Prelude.{◌≡◌, true, false, ◌*◌, ◌<◌, pos};
ghost use Rattle.arith.specs.Sums.{sum_of, upto};
ghost use Rattle.market.specs.CaseCheck.{most_resources};
ghost use Rattle.market.specs.Prices.{lmp_of};
ghost use Rattle.market.specs.Records.{millicents};
ghost use Rattle.prices.specs.Written.{Lmps};
ghost use Rattle.costs.specs.Worth.{resource_worth};
ghost use Rattle.bounds.specs.Sizes.{most_least_terms, most_resource_terms};
ghost use Rattle.bounds.specs.Terms.{least_terms, resource_terms};
ghost use Rattle.valuations.specs.Values.{StepsRoom, StepsValued, Valued};
ghost use Rattle.prices.specs.PricedCase.{the_case, the_prices, the_amounts, case_bytes, certificate_bytes};

use capabilities::KeptCase;
use costs::ThousandGrains;
use limits::OfferInRange;
use market::{Grains, Kw, MOST_RESOURCES, Millicents};
use net_prices::Nets;

// What is added to the cost, at prices in cents, and to the bound.
#[derive(Clone, Copy, Drop)]
pub struct Value {
    pub worth: ThousandGrains,
    pub least: Grains,
}

// ---- a resource's energy

// The steps of an on-line resource, filled in order. Why this loop and that of `costs::curve_value` stay two is said there.
#[tactic(auto, using(arith::proofs::SumSteps::sum_steps))]
fn steps_value(offer: OfferInRange, nets: Nets, energy: Kw) -> Value
    requires { StepsRoom offer.steps energy }
    ensures { StepsValued true offer.steps nets.prices energy result }
{
    let mut worth = ThousandGrains(0);
    let mut left = energy;
    let mut least = Grains(0);
    for step in &offer.steps {
        let filled = costs::fill(left, step.width);
        worth = units::sum(worth, costs::worth(step.price, filled.part));
        left = filled.left;
        least = units::sized_sum(least, bounds::step_least(nets, true, *step));
    }
    Value { worth, least }
}

// A resource that is not on-line has no energy, and the upper bounds of its steps are 0.
fn energy_value(on: bool, offer: OfferInRange, nets: Nets, energy: Kw) -> Value
    requires { StepsRoom offer.steps energy × (on ≡ false → energy.0 ≡ pos 0) }
    ensures { StepsValued on offer.steps nets.prices energy result }
{
    if !on {
        return Value {
            worth: ThousandGrains(0),
            least: Grains(0),
        };
    }
    steps_value(offer, nets, energy)
}

// ---- a resource, its LMP being `lmp`

// What is priced of resource i: its steps and its reserves.
fn priced_value(kept: &KeptCase<'_>, i: usize, lmp: Millicents) -> Value
    requires resource { i < kept.now.bounded.priced.case.resources }
    requires lmp_value { lmp ≡ millicents (lmp_of (the_case kept.now.bounded.priced) (the_prices kept.now.bounded.priced) i) }
    ensures { Valued result (resource_worth (the_case kept.now.bounded.priced) (the_amounts kept.now.bounded.priced) i) (least_terms (case_bytes kept.now.bounded.priced) (certificate_bytes kept.now.bounded.priced) i) most_least_terms }
{
    let resource = kept.bounded.priced.case.resource(i);
    let own = kept.bounded.amounts(i);
    let offer = kept.bounded.priced.offer_steps(i);
    let on = kept.on_line(i);
    let spins = kept.spinning(i);
    let uppers = kept.bounds(i);
    let nets = net_prices::nets_for(&kept.bounded.priced, i, spins, lmp, resource);
    let energy = energy_value(on, offer, nets, own.amounts.energy);
    let reserves = costs::reserves_worth(resource.offers, own);
    let least = bounds::reserves_least(nets, uppers);
    Value {
        worth: units::sum(energy.worth, reserves),
        least: units::sized_sum(energy.least, least),
    }
}

// Its own rows, which cost nothing, and what is priced of it.
fn resource_value(kept: &KeptCase<'_>, i: usize, lmp: Millicents) -> Value
    requires resource { i < kept.now.bounded.priced.case.resources }
    requires lmp_value { lmp ≡ millicents (lmp_of (the_case kept.now.bounded.priced) (the_prices kept.now.bounded.priced) i) }
    ensures { Valued result (resource_worth (the_case kept.now.bounded.priced) (the_amounts kept.now.bounded.priced) i) (resource_terms (case_bytes kept.now.bounded.priced) (certificate_bytes kept.now.bounded.priced) i) most_resource_terms }
{
    let prices = kept.bounded.priced.certificate.limit_prices(i);
    let held = kept.limits(i);
    let rows = bounds::limit_value(prices, held);
    let priced = priced_value(kept, i, lmp);
    let worth = priced.worth;
    Value {
        worth,
        least: units::sized_sum(rows, priced.least),
    }
}

// ---- all resources

// With their LMPs. Kept apart from what calls it, for its registers, as `case_soundness::resources_sound` is.
#[inline(never)]
#[tactic(auto, using(arith::proofs::SumSteps::sum_steps))]
fn sum_values(kept: &KeptCase<'_>, lmps: &[i64]) -> Value
    requires { Lmps (case_bytes kept.now.bounded.priced) (certificate_bytes kept.now.bounded.priced) kept.now.bounded.priced.case.resources lmps.now }
    ensures { Valued result (sum_of (resource_worth (the_case kept.now.bounded.priced) (the_amounts kept.now.bounded.priced)) (upto kept.now.bounded.priced.case.resources)) (sum_of (resource_terms (case_bytes kept.now.bounded.priced) (certificate_bytes kept.now.bounded.priced)) (upto kept.now.bounded.priced.case.resources)) (most_resources * most_resource_terms) }
{
    let mut worth = ThousandGrains(0);
    let mut least = Grains(0);
    for i in 0..kept.bounded.priced.case.resources {
        let one = resource_value(kept, i, Millicents(lmps[i]));
        worth = units::sum(worth, one.worth);
        least = units::sized_sum(least, one.least);
    }
    Value { worth, least }
}

pub fn resources_value(kept: &KeptCase<'_>) -> Value
    ensures { Valued result (sum_of (resource_worth (the_case kept.now.bounded.priced) (the_amounts kept.now.bounded.priced)) (upto kept.now.bounded.priced.case.resources)) (sum_of (resource_terms (case_bytes kept.now.bounded.priced) (certificate_bytes kept.now.bounded.priced)) (upto kept.now.bounded.priced.case.resources)) (most_resources * most_resource_terms) }
{
    let mut lmps = [0i64; MOST_RESOURCES];
    kept.bounded.priced.write_lmps(&mut lmps);
    sum_values(kept, &lmps)
}
