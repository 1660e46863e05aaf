// Steps filled in order, and the cost of a certificate's amounts (01, 'Certificate, cost, bound, charges').
// Amounts at prices in cents are summed as they are; the whole sum is then taken a thousand times, into grains. What the resources
// are given at their prices is summed in `valuations`, with what they add to the bound.
#![tactic(auto)]

ghost use Rattle.std.specs.Prelude.{◌≡◌, refl, ◌<◌, ◌≤◌, pos, nat_abs, ◌*ℤ◌};
ghost use Rattle.arith.specs.Sums.{sum_of, upto};
ghost use Rattle.market.specs.Case.{curves};
ghost use Rattle.market.specs.Cost.{cost};
ghost use Rattle.market.specs.Records.{grains};
ghost use Rattle.case_records.specs.Ranged.{UpTo, RangedOffers, curve_step};
ghost use Rattle.units.specs.Room.{ProductRoom};
ghost use Rattle.costs.specs.Steps.{most_in_steps, filling_of, steps_worth};
ghost use Rattle.costs.specs.Worth.{thousands, resource_worth, curve_value, reserves_worth};
ghost use Rattle.prices.specs.PricedCase.{the_case, the_amounts};

use limits::CurveInRange;
use market::{Cents, Curve, Grains, Kw, ReserveOffers, Unit};
use prices::{BoundedAmounts, BoundedCase};
use units::sum;

// Amounts at prices in cents: a cent per MWh times a kW is a thousand grains.
#[derive(Clone, Copy, Drop)]
pub struct ThousandGrains(pub i64);

impl Unit for ThousandGrains {
    ghost number = { λ a. a.0 };

    ghost of = { λ v. record { 0 = v } };

    ghost number_of = { λ v. refl };

    fn of(figure: i64) -> ThousandGrains {
        ThousandGrains(figure)
    }

    fn number(self) -> i64 {
        self.0
    }
}

// A price in cents times an amount. It names its units, as the products of `units` do.
pub fn worth(a: Cents, b: Kw) -> ThousandGrains
    requires { ProductRoom a.0 b.0 }
    ensures { result ≡ thousands (a.0 *ℤ b.0) }
{
    ThousandGrains(a.0 * b.0)
}

fn in_grains(a: ThousandGrains) -> Grains
    requires { nat_abs a.0 ≤ 1000000000000000 }
    ensures { result ≡ grains (pos 1000 *ℤ a.0) }
{
    Grains(1000 * a.0)
}

// ---- steps filled in order

// What fills a step, and what is left for the steps after it.
#[derive(Clone, Copy, Drop)]
pub struct Filled {
    pub part: Kw,
    pub left: Kw,
}

// Of an amount that is left, into a step of that width.
pub fn fill(left: Kw, width: Kw) -> Filled
    requires { UpTo left.0 most_in_steps × UpTo width.0 most_in_steps }
    ensures { result ≡ filling_of (nat_abs left.0) (nat_abs width.0) }
{
    let part = limits::lesser(width, left);
    Filled {
        part,
        left: units::difference(left, part),
    }
}

// The value of a cleared quantity: the prices of the steps of its curve that it fills. `valuations::steps_value` fills an offer's
// ten steps likewise, and takes of each what it adds to the bound besides: one function of both would have to say of each step, by
// a closure's `pre` and `post`, what each of the two says in one clause.
fn curve_value(curve: CurveInRange, cleared: Kw) -> ThousandGrains
    requires { UpTo cleared.0 most_in_steps }
    ensures { result ≡ thousands (steps_worth (curve_step curve.steps) (nat_abs cleared.0) 4) }
{
    let mut value = ThousandGrains(0);
    let mut left = cleared;
    for step in &curve.steps {
        let filled = fill(left, step.width);
        value = sum(value, worth(step.price, filled.part));
        left = filled.left;
    }
    value
}

// ---- the cost

// g, c and o at their prices; s is priced 0.
pub fn reserves_worth(offers: ReserveOffers, own: BoundedAmounts) -> ThousandGrains
    requires { RangedOffers offers }
    ensures { result ≡ thousands (reserves_worth offers own.amounts) }
{
    let amounts = own.amounts;
    let regulation = worth(offers.regulating, amounts.regulation);
    let contingency = worth(offers.contingency, amounts.contingency);
    let short_term = worth(offers.off_line_short_term, amounts.off_line_short_term);
    sum(regulation, sum(contingency, short_term))
}

// The value of the cleared quantities, curve by curve.
fn curves_value(bounded: &BoundedCase<'_>) -> ThousandGrains
    ensures { result ≡ thousands (sum_of (curve_value (the_case bounded.now.priced) (the_amounts bounded.now.priced)) (curves (the_case bounded.now.priced).version)) }
{
    let cleared = bounded.priced.certificate.cleared();
    let operating = curve_value(bounded.priced.curve(Curve::Operating), cleared.operating);
    let spinning = curve_value(
        bounded.priced.curve(Curve::RegulatingPlusSpinning),
        cleared.regulating_plus_spinning,
    );
    let regulating = curve_value(bounded.priced.curve(Curve::Regulating), cleared.regulating);
    let short_term = curve_value(bounded.priced.curve(Curve::ShortTerm), cleared.short_term);
    sum(operating, sum(spinning, sum(regulating, short_term)))
}

// 1000 × (energy steps, g, c, o at their prices, less curve value), of what the resources are given at their prices, `resources`.
pub fn cost(bounded: &BoundedCase<'_>, resources: ThousandGrains) -> Grains
    requires { resources ≡ thousands (sum_of (resource_worth (the_case bounded.now.priced) (the_amounts bounded.now.priced)) (upto bounded.now.priced.case.resources)) }
    ensures { result ≡ grains (cost (the_case bounded.now.priced) (the_amounts bounded.now.priced)) }
{
    let value = curves_value(bounded);
    in_grains(units::difference(resources, value))
}
