// The charges of an accepted certificate, written into a lent buffer in charge order (01, 'Certificate, cost, bound,
// charges'). Of what is priced: for each resource ten energy steps, g, c, s and o, from the resource's own place on; then
// sixteen curve steps. What stands beyond them stays as it was.
#![tactic(auto)]

ghost use Rattle.std.specs.Prelude.{◌≡◌, map, ◌++◌, ◌+◌, ◌*◌, ◌<◌, ◌≤◌, true, false, pos, nat_abs, length, drop};
ghost use Rattle.arith.specs.Sums.{upto, across};
ghost use Rattle.market.specs.Case.{curves};
ghost use Rattle.market.specs.Cost.{curve_priced, priced, resource_priced_count, curve_priced_count, priced_count_of};
ghost use Rattle.market.specs.Charges.{priced_charge, charges, charge_count, charge_count_of};
ghost use Rattle.market.specs.Rows.{row_count_of};
ghost use Rattle.market.specs.Prices.{lmp_of};
ghost use Rattle.market.specs.Records.{grains, millicents};
ghost use Rattle.market.specs.Sizes.{most_power, most_curve_width};
ghost use Rattle.case_records.specs.Ranged.{UpTo};
ghost use Rattle.case_reader.specs.Reader.{case_in};
ghost use Rattle.capabilities.specs.Sizes.{SmallBounds};
ghost use Rattle.prices.specs.Written.{Lmps};
ghost use Rattle.net_prices.specs.Sizes.{SmallPrice};
ghost use Rattle.charges.specs.Sizes.{ChargeRoom, StepRoom, CurveRoom, ClearedRoom};
ghost use Rattle.charges.specs.Terms.{charge_in, resource_charges, charge_of, step_charge, energy_charge, reserve_charges, curve_step_charge, curve_charge, curve_charges};
ghost use Rattle.prices.specs.PricedCase.{the_case, the_prices, the_amounts, case_bytes, certificate_bytes};

use capabilities::KeptCase;
use case_reader::SizedCase;
use limits::{CurveInRange, OfferInRange, ReserveBounds};
use market::{Curve, ENERGY_STEPS, Grains, Kw, MOST_RESOURCES, Millicents, Step, ZONE_ROWS};
use net_prices::Nets;
use prices::{BoundedAmounts, BoundedCase};

// What an amount adds at its net price, beyond the least that it could add up to its upper bound.
fn quantity_charge(net: Millicents, amount: Kw, upper: Kw) -> Grains
    requires { ChargeRoom net amount upper }
    ensures { result ≡ grains (charge_of net.0 amount.0 upper.0) }
{
    let added = units::value(net, amount);
    let least = bounds::least_of(net, upper);
    units::difference(added, least)
}

// ---- a resource

// Of an energy step, by what fills it.
#[tactic(auto, unfolding(crate::specs::Terms::step_charge))]
fn step_charge(nets: Nets, on: bool, step: Step, part: Kw) -> Grains
    requires { StepRoom step part most_power }
    ensures { result ≡ grains (step_charge nets.prices on step part.0) }
{
    let net = net_prices::step_net(nets, step.price);
    let upper = bounds::step_bound(on, step.width);
    quantity_charge(net, part, upper)
}

// The ten energy steps of an on-line resource, filled in order. `write_curve` differs in a step's charge: one function of both would
// have to say of each step, by a closure's `pre` and `post`, what each of the two says in one clause.
fn write_steps(nets: Nets, offer: OfferInRange, energy: Kw, out: &mut [i64])
    requires { UpTo energy.0 most_power × (10 ≤ length out.old) }
    ensures { out.new ≡ map (energy_charge nets.prices true offer.steps (nat_abs energy.0)) (upto 10) ++ drop 10 out.old }
{
    let mut left = energy;
    for (j, step) in offer.steps.iter().enumerate() {
        let filled = costs::fill(left, step.width);
        let charge = step_charge(nets, true, *step, filled.part);
        out[j] = charge.0;
        left = filled.left;
    }
}

// A resource that is not on-line has no energy, and the upper bounds of its steps are 0: so are their charges.
fn write_energy(nets: Nets, on: bool, offer: OfferInRange, energy: Kw, out: &mut [i64])
    requires { (UpTo energy.0 most_power × (on ≡ false → energy.0 ≡ pos 0)) × (10 ≤ length out.old) }
    ensures { out.new ≡ map (energy_charge nets.prices on offer.steps (nat_abs energy.0)) (upto 10) ++ drop 10 out.old }
{
    if !on {
        out[..ENERGY_STEPS].copy_from_slice(&[0; ENERGY_STEPS]);
        return;
    }
    write_steps(nets, offer, energy, out);
}

// g, c, s and o.
#[tactic(auto, unfolding(crate::specs::Terms::reserve_charges))]
fn write_reserves(nets: Nets, own: BoundedAmounts, uppers: ReserveBounds, out: &mut [i64])
    requires { SmallBounds uppers × (4 ≤ length out.old) }
    ensures { out.new ≡ reserve_charges nets.prices own.amounts uppers ++ drop 4 out.old }
{
    let prices = nets.prices;
    let amounts = own.amounts;
    let regulation = quantity_charge(prices.regulation, amounts.regulation, uppers.regulation);
    let contingency = quantity_charge(prices.contingency, amounts.contingency, uppers.contingency);
    let on_line = quantity_charge(
        prices.on_line_short_term,
        amounts.on_line_short_term,
        uppers.on_line_short_term,
    );
    let off_line = quantity_charge(
        prices.off_line_short_term,
        amounts.off_line_short_term,
        uppers.off_line_short_term,
    );
    out[..4].copy_from_slice(&[regulation.0, contingency.0, on_line.0, off_line.0]);
}

// The fourteen charges of resource i, its LMP being `lmp`.
fn write_resource(kept: &KeptCase<'_>, i: usize, lmp: Millicents, out: &mut [i64])
    requires room { (i < kept.now.bounded.priced.case.resources) × (resource_priced_count (the_case kept.now.bounded.priced).version ≤ length out.old) }
    requires lmp_value { lmp ≡ millicents (lmp_of (the_case kept.now.bounded.priced) (the_prices kept.now.bounded.priced) i) }
    ensures { out.new ≡ resource_charges (case_bytes kept.now.bounded.priced) (certificate_bytes kept.now.bounded.priced) i ++ drop (resource_priced_count (the_case kept.now.bounded.priced).version) out.old }
{
    let resource = kept.bounded.priced.case.resource(i);
    let own = kept.bounded.amounts(i);
    let on = kept.on_line(i);
    let spins = kept.spinning(i);
    let nets = net_prices::nets_for(&kept.bounded.priced, i, spins, lmp, resource);
    let offer = kept.bounded.priced.offer_steps(i);
    write_energy(nets, on, offer, own.amounts.energy, out);
    // read behind the steps and not before them: of 64 resources that saves 280 instructions
    let uppers = kept.bounds(i);
    write_reserves(nets, own, uppers, &mut out[10..]);
}

// How many charges of what is priced a resource has.
fn resource_count(case: &SizedCase<'_>) -> usize
    ensures { result ≡ resource_priced_count (case_in case.now).version }
{
    case.version().resource_priced()
}

// Each resource's charges, from its own place on, with its LMP. Kept apart from what calls it, for its registers, as
// `case_soundness::resources_sound` is.
#[inline(never)]
#[tactic(auto, unfolding(arith::specs::Sums::upto, arith::specs::Sums::across))]
fn write_resources(kept: &KeptCase<'_>, lmps: &[i64], out: &mut [i64])
    requires room { kept.now.bounded.priced.case.resources * resource_priced_count (the_case kept.now.bounded.priced).version ≤ length out.old }
    requires lmps { Lmps (case_bytes kept.now.bounded.priced) (certificate_bytes kept.now.bounded.priced) kept.now.bounded.priced.case.resources lmps.now }
    ensures { out.new ≡ across (resource_charges (case_bytes kept.now.bounded.priced) (certificate_bytes kept.now.bounded.priced)) (upto kept.now.bounded.priced.case.resources) ++ drop (kept.now.bounded.priced.case.resources * resource_priced_count (the_case kept.now.bounded.priced).version) out.old }
{
    let own = resource_count(&kept.bounded.priced.case);
    for i in 0..kept.bounded.priced.case.resources {
        let lmp = Millicents(lmps[i]);
        write_resource(kept, i, lmp, &mut out[i * own..]);
    }
}

// ---- the demand curves

// Of a step of a curve whose market row has the price, by what fills it.
#[tactic(auto, unfolding(crate::specs::Terms::curve_step_charge))]
fn curve_step_charge(price: Millicents, step: Step, part: Kw) -> Grains
    requires { SmallPrice price × StepRoom step part most_curve_width }
    ensures { result ≡ grains (curve_step_charge price step part.0) }
{
    let net = net_prices::curve_net(price, step.price);
    quantity_charge(net, part, step.width)
}

// The four steps of a curve, filled in order.
fn write_curve(price: Millicents, curve: CurveInRange, cleared: Kw, out: &mut [i64])
    requires { CurveRoom price cleared × (4 ≤ length out.old) }
    ensures { out.new ≡ map (curve_charge price curve.steps (nat_abs cleared.0)) (upto 4) ++ drop 4 out.old }
{
    let mut left = cleared;
    for (j, step) in curve.steps.iter().enumerate() {
        let filled = costs::fill(left, step.width);
        let charge = curve_step_charge(price, *step, filled.part);
        out[j] = charge.0;
        left = filled.left;
    }
}

// A demand curve, with the price of its market row and its cleared quantity.
#[derive(Clone, Copy, Drop)]
struct ClearedCurve {
    price: Millicents,
    curve: CurveInRange,
    cleared: Kw,
}

// Two curves, one behind the other.
fn write_pair(first: ClearedCurve, second: ClearedCurve, out: &mut [i64])
    requires { (ClearedRoom first × ClearedRoom second) × (8 ≤ length out.old) }
    ensures { out.new ≡ (curve_charges first ++ curve_charges second) ++ drop 8 out.old }
{
    write_curve(first.price, first.curve, first.cleared, out);
    write_curve(second.price, second.curve, second.cleared, &mut out[4..]);
}

// The four curves in order.
fn write_curves(bounded: &BoundedCase<'_>, out: &mut [i64])
    requires { curve_priced_count (the_case bounded.now.priced).version ≤ length out.old }
    ensures { out.new ≡ map (charge_in (case_bytes bounded.now.priced) (certificate_bytes bounded.now.priced)) (across curve_priced (curves (the_case bounded.now.priced).version)) ++ drop (curve_priced_count (the_case bounded.now.priced).version) out.old }
{
    let prices = bounded.priced.certificate.market_prices();
    let cleared = bounded.priced.certificate.cleared();
    let operating = ClearedCurve {
        price: prices.operating,
        curve: bounded.priced.curve(Curve::Operating),
        cleared: cleared.operating,
    };
    let both = ClearedCurve {
        price: prices.regulating_plus_spinning,
        curve: bounded.priced.curve(Curve::RegulatingPlusSpinning),
        cleared: cleared.regulating_plus_spinning,
    };
    let regulating = ClearedCurve {
        price: prices.regulating,
        curve: bounded.priced.curve(Curve::Regulating),
        cleared: cleared.regulating,
    };
    let short_term = ClearedCurve {
        price: prices.short_term,
        curve: bounded.priced.curve(Curve::ShortTerm),
        cleared: cleared.short_term,
    };
    write_pair(operating, both, out);
    write_pair(regulating, short_term, &mut out[8..]);
}

// ---- all that is priced

fn write_priced_charges(kept: &KeptCase<'_>, out: &mut [i64])
    requires { priced_count_of (the_case kept.now.bounded.priced).version kept.now.bounded.priced.case.resources ≤ length out.old }
    ensures { out.new ≡ map (priced_charge (the_case kept.now.bounded.priced) (the_amounts kept.now.bounded.priced) (the_prices kept.now.bounded.priced)) (priced (the_case kept.now.bounded.priced)) ++ drop (priced_count_of (the_case kept.now.bounded.priced).version kept.now.bounded.priced.case.resources) out.old }
{
    let mut lmps = [0i64; MOST_RESOURCES];
    kept.bounded.priced.write_lmps(&mut lmps);
    write_resources(kept, &lmps, out);
    let own = resource_count(&kept.bounded.priced.case);
    let at = kept.bounded.priced.case.resources * own;
    write_curves(&kept.bounded, &mut out[at..]);
}

// ---- all charges

// How many rows the case has.
fn row_count(case: &SizedCase<'_>) -> usize
    ensures { result ≡ row_count_of (case_in case.now).version case.now.resources case.now.zones case.now.flowgates }
{
    let version = case.version();
    version.system_rows()
        + case.zones * ZONE_ROWS
        + case.flowgates
        + case.resources * version.resource_rows()
}

// The rows', then those of what is priced.
pub fn write_charges(kept: &KeptCase<'_>, out: &mut [i64])
    requires { charge_count_of (the_case kept.now.bounded.priced).version kept.now.bounded.priced.case.resources kept.now.bounded.priced.case.zones kept.now.bounded.priced.case.flowgates ≤ length out.old }
    ensures { out.new ≡ charges (the_case kept.now.bounded.priced) (the_amounts kept.now.bounded.priced) (the_prices kept.now.bounded.priced) ++ drop (charge_count (the_case kept.now.bounded.priced)) out.old }
{
    row_charges::write_row_charges(kept, out);
    let at = row_count(&kept.bounded.priced.case);
    write_priced_charges(kept, &mut out[at..]);
}
