// The bound that a certificate's prices give (01, 'Certificate, cost, bound, charges'): the sum over rows of row price ×
// right side, and the sum over what is priced of the lesser of 0 and net price × upper bound. Every sum says how large it
// can be (specs/Sizes.antt), so that the next one fits. What the resources add is summed in `valuations`, with the cost.
#![tactic(auto)]

ghost use Rattle.std.specs.Prelude.{◌≡◌, ◌+◌, ◌*◌, ◌<◌, nat_abs, ◌+ℤ◌, ◌*ℤ◌};
ghost use Rattle.arith.specs.Sums.{sum_of, upto, across};
ghost use Rattle.market.specs.Case.{curves};
ghost use Rattle.market.specs.Rows.{balance_row};
ghost use Rattle.market.specs.Cost.{curve_priced};
ghost use Rattle.market.specs.Bound.{bound};
ghost use Rattle.market.specs.Records.{grains};
ghost use Rattle.market.specs.CaseCheck.{most_resources, most_zones, most_flowgates};
ghost use Rattle.market.specs.UpperBounds.{energy};
ghost use Rattle.market.specs.Sizes.{most_power, most_curve_width, most_price, most_service_net};
ghost use Rattle.case_records.specs.Ranged.{curve_step};
ghost use Rattle.capabilities.specs.Sizes.{SmallLimits, SmallBounds};
ghost use Rattle.units.specs.Room.{ProductRoom};
ghost use Rattle.units.specs.Sized.{Sized};
ghost use Rattle.prices.specs.ZonePrices.{SmallPrices};
ghost use Rattle.net_prices.specs.Sizes.{SmallPrice, SmallLimitPrices};
ghost use Rattle.bounds.specs.Sizes.{most_zone_terms, most_flowgate_term, most_common_terms, most_limit_terms, most_reserve_terms, most_resource_terms, most_curve_step_term, most_curve_terms, most_curves_terms, RowRoom, SmallRequirements, SmallStep};
ghost use Rattle.bounds.specs.Terms.{row_term, priced_term, zone_terms, flowgate_term, resource_terms, zone_value, limit_value, least_of, step_bound, step_least, reserves_least, curve_step_least};
ghost use Rattle.prices.specs.PricedCase.{the_case, the_prices, case_bytes, certificate_bytes};

use limits::{CurveInRange, ReserveBounds, ResourceLimits};
use market::{
    Curve, CurveAmounts, Grains, Kw, LimitPrices, Millicents, ReservePrices, Step, Watts,
};
use net_prices::Nets;
use prices::{BoundedCase, PricedCase};
use units::{sized_difference, sized_sum};

// ---- products in grains, with how large they can be

// The price of a row times a right side.
fn worth(price: Millicents, side: Kw) -> Grains
    requires { RowRoom price side }
    ensures { Sized result.0 (price.0 *ℤ side.0) (most_price * nat_abs side.0) }
{
    units::value(price, side)
}

// The least that a quantity between 0 and its upper bound adds at its net price.
pub fn least_of(net: Millicents, upper: Kw) -> Grains
    requires { ProductRoom net.0 upper.0 }
    ensures { Sized result.0 (least_of net.0 upper.0) (nat_abs net.0 * nat_abs upper.0) }
{
    let whole = units::value(net, upper);
    units::negative_part(whole)
}

// ---- rows: of zones

fn zone_value(prices: ReservePrices, needed: CurveAmounts) -> Grains
    requires { SmallPrices prices × SmallRequirements needed }
    ensures { Sized result.0 (zone_value prices needed) most_zone_terms }
{
    let operating = worth(prices.operating, needed.operating);
    let both = worth(
        prices.regulating_plus_spinning,
        needed.regulating_plus_spinning,
    );
    let regulating = worth(prices.regulating, needed.regulating);
    let short_term = worth(prices.short_term, needed.short_term);
    let last = sized_sum(regulating, short_term);
    let rest = sized_sum(both, last);
    sized_sum(operating, rest)
}

fn zone_terms(priced: &PricedCase<'_>, zone: usize) -> Grains
    requires { zone < priced.now.case.zones }
    ensures { Sized result.0 (zone_terms (case_bytes priced.now) (certificate_bytes priced.now) zone) most_zone_terms }
{
    let prices = priced.certificate.zone_prices(zone);
    let needed = priced.case.zone(zone);
    zone_value(prices, needed)
}

// `flowgates_sum` differs in the term summed: one function of both would take the term as a closure, and have to say of each
// number below a count, by its `pre` and `post`, what `zone_terms` and `flowgate_term` say in one clause.
#[tactic(auto, using(arith::proofs::SumSteps::sum_steps))]
fn zones_sum(priced: &PricedCase<'_>) -> Grains
    ensures { Sized result.0 (sum_of (zone_terms (case_bytes priced.now) (certificate_bytes priced.now)) (upto priced.now.case.zones)) (most_zones * most_zone_terms) }
{
    let mut sum = Grains(0);
    for zone in 0..priced.case.zones {
        let terms = zone_terms(priced, zone);
        sum = sized_sum(sum, terms);
    }
    sum
}

// ---- of flowgates

// 'At least': the limit stands on the right with its sign turned.
fn flowgate_term(priced: &PricedCase<'_>, flowgate: usize) -> Grains
    requires { flowgate < priced.now.case.flowgates }
    ensures { Sized result.0 (flowgate_term (case_bytes priced.now) (certificate_bytes priced.now) flowgate) most_flowgate_term }
{
    let price = priced.certificate.flowgate_price(flowgate);
    let limit = priced.case.flowgate_limit(flowgate);
    let most = units::in_watts(limit);
    let side = units::difference(Watts(0), most);
    units::flow_value(price, side)
}

#[tactic(auto, using(arith::proofs::SumSteps::sum_steps))]
fn flowgates_sum(priced: &PricedCase<'_>) -> Grains
    ensures { Sized result.0 (sum_of (flowgate_term (case_bytes priced.now) (certificate_bytes priced.now)) (upto priced.now.case.flowgates)) (most_flowgates * most_flowgate_term) }
{
    let mut sum = Grains(0);
    for flowgate in 0..priced.case.flowgates {
        let term = flowgate_term(priced, flowgate);
        sum = sized_sum(sum, term);
    }
    sum
}

// ---- of resources

// The rows from below less those from above: MAX with reserves, MAX with short-term reserve, HI.
pub fn limit_value(prices: LimitPrices, held: ResourceLimits) -> Grains
    requires { SmallLimitPrices prices × SmallLimits held }
    ensures { Sized result.0 (limit_value prices held) most_limit_terms }
{
    let minimum = worth(prices.minimum, held.min);
    let low = worth(prices.low, held.low);
    let below = sized_sum(minimum, low);
    let reserve = worth(prices.max_with_reserve, held.max);
    let short_term = worth(prices.max_with_short_term, held.max);
    let most = sized_sum(reserve, short_term);
    let high = worth(prices.high, held.high);
    let above = sized_sum(most, high);
    sized_difference(below, above)
}

// ---- of no resource

// A market row's right side is 0.
fn common_terms(priced: &PricedCase<'_>) -> Grains
    ensures { Sized result.0 (row_term (case_bytes priced.now) (certificate_bytes priced.now) balance_row +ℤ (sum_of (zone_terms (case_bytes priced.now) (certificate_bytes priced.now)) (upto priced.now.case.zones) +ℤ sum_of (flowgate_term (case_bytes priced.now) (certificate_bytes priced.now)) (upto priced.now.case.flowgates))) most_common_terms }
{
    let price = priced.certificate.balance_price();
    let demand = priced.case.demand();
    let balance = worth(price, demand);
    let zones = zones_sum(priced);
    let flowgates = flowgates_sum(priced);
    let rest = sized_sum(zones, flowgates);
    sized_sum(balance, rest)
}

// ---- what is priced: a resource's energy steps

// A step's upper bound: its width, or 0 if its resource is not on-line.
pub fn step_bound(on: bool, width: Kw) -> Kw
    ensures { result ≡ step_bound on width }
{
    if on {
        return width;
    }
    Kw(0)
}

// Net prices, standing and steps stay three parameters: of the four functions that take them two take one step, and two all ten.
pub fn step_least(nets: Nets, on: bool, step: Step) -> Grains
    requires { SmallStep step most_power }
    ensures { Sized result.0 (step_least nets.prices on step) (most_service_net energy * nat_abs step.width.0) }
{
    let net = net_prices::step_net(nets, step.price);
    let upper = step_bound(on, step.width);
    least_of(net, upper)
}

// ---- its reserves

pub fn reserves_least(nets: Nets, uppers: ReserveBounds) -> Grains
    requires { SmallBounds uppers }
    ensures { Sized result.0 (reserves_least nets.prices uppers) most_reserve_terms }
{
    let prices = nets.prices;
    let regulation = least_of(prices.regulation, uppers.regulation);
    let contingency = least_of(prices.contingency, uppers.contingency);
    let on_line = least_of(prices.on_line_short_term, uppers.on_line_short_term);
    let off_line = least_of(prices.off_line_short_term, uppers.off_line_short_term);
    let last = sized_sum(on_line, off_line);
    let rest = sized_sum(contingency, last);
    sized_sum(regulation, rest)
}

// ---- the steps of the demand curves

// Of a curve whose market row has the price.
fn curve_step_least(price: Millicents, step: Step) -> Grains
    requires { SmallPrice price × SmallStep step most_curve_width }
    ensures { Sized result.0 (curve_step_least price step) most_curve_step_term }
{
    let net = net_prices::curve_net(price, step.price);
    least_of(net, step.width)
}

#[tactic(auto, using(arith::proofs::SumSteps::sum_steps))]
fn curve_least(price: Millicents, curve: CurveInRange) -> Grains
    requires { SmallPrice price }
    ensures { Sized result.0 (sum_of (λ j. curve_step_least price (curve_step curve.steps j)) (upto 4)) most_curve_terms }
{
    let mut sum = Grains(0);
    for step in &curve.steps {
        let least = curve_step_least(price, *step);
        sum = sized_sum(sum, least);
    }
    sum
}

fn curves_least(priced: &PricedCase<'_>) -> Grains
    ensures { Sized result.0 (sum_of (priced_term (case_bytes priced.now) (certificate_bytes priced.now)) (across curve_priced (curves (the_case priced.now).version))) most_curves_terms }
{
    let prices = priced.certificate.market_prices();
    let operating = curve_least(prices.operating, priced.curve(Curve::Operating));
    let both = curve_least(
        prices.regulating_plus_spinning,
        priced.curve(Curve::RegulatingPlusSpinning),
    );
    let regulating = curve_least(prices.regulating, priced.curve(Curve::Regulating));
    let short_term = curve_least(prices.short_term, priced.curve(Curve::ShortTerm));
    let last = sized_sum(regulating, short_term);
    let rest = sized_sum(both, last);
    sized_sum(operating, rest)
}

// ---- the bound

// Of what the resources add together, `resources`.
pub fn bound(bounded: &BoundedCase<'_>, resources: Grains) -> Grains
    requires { Sized resources.0 (sum_of (resource_terms (case_bytes bounded.now.priced) (certificate_bytes bounded.now.priced)) (upto bounded.now.priced.case.resources)) (most_resources * most_resource_terms) }
    ensures { result ≡ grains (bound (the_case bounded.now.priced) (the_prices bounded.now.priced)) }
{
    let common = common_terms(&bounded.priced);
    let cleared = curves_least(&bounded.priced);
    let rest = sized_sum(resources, cleared);
    sized_sum(common, rest)
}
