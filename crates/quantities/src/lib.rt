// The certificate check as far as the upper bounds: grounds 1 to 13 of a case and a certificate, each tested only where no
// earlier one holds anywhere in the files (01, 'How each operation refuses').
#![tactic(auto)]

ghost use Rattle.std.specs.Prelude.{◌≡◌, map, ℕ, ◌+◌, ◌<◌, ◌≤◌, leb, length, IfOk};
ghost use Rattle.arith.specs.Sums.{upto, across};
ghost use Rattle.market.specs.declared.Refusal.TheVariants.{AboveBound};
ghost use Rattle.market.specs.Case.{Case};
ghost use Rattle.market.specs.Availability.{on_line};
ghost use Rattle.market.specs.CaseCheck.{most_resources};
ghost use Rattle.market.specs.CaseFile.{case_of};
ghost use Rattle.market.specs.UpperBounds.{cleared_quantity, provided_quantity, services, Schedule, upper_bound};
ghost use Rattle.market.specs.Certificate.{certificate_of};
ghost use Rattle.market.specs.Records.{power, counts_in, offer_steps_of, amounts_of, cleared_of};
ghost use Rattle.market.specs.Refusals.{first_of, first_failing, found_at};
ghost use Rattle.market.specs.Outcome.{within_bound, price_ground, bound_ground, grounds_to11, grounds_to13};
ghost use Rattle.market.specs.Refusals.{answered};
ghost use Rattle.certificate_records.specs.Reader.{certificate_in};
ghost use Rattle.limits.specs.Together.{reserve_bounds_of};
ghost use Rattle.prices.specs.PricedCase.{the_case};
ghost use Rattle.capabilities.specs.Kept.{Kept};
ghost use Rattle.quantities.specs.Filing.{FiledWith, Decided};
ghost use Rattle.quantities.specs.Places.{first_provided};

use capabilities::Capability;
use certificate_records::SizedCertificate;
use limits::{OfferInRange, ReserveBounds};
use market::{Amounts, Counts, Curve, CurveAmounts, Kw, Refusal};
use prices::PricedCase;

// ---- upper bounds

// Of a curve's cleared quantity.
fn curve_bound_at(priced: &PricedCase<'_>, curve: Curve) -> Kw
    ensures { result ≡ power (upper_bound (the_case priced.now) (cleared_quantity curve)) }
{
    limits::curve_bound(priced.curve(curve))
}

fn curve_bounds(priced: &PricedCase<'_>) -> CurveAmounts
    ensures { result ≡ cleared_of (upper_bound (the_case priced.now)) }
{
    CurveAmounts {
        operating: curve_bound_at(priced, Curve::Operating),
        regulating_plus_spinning: curve_bound_at(priced, Curve::RegulatingPlusSpinning),
        regulating: curve_bound_at(priced, Curve::Regulating),
        short_term: curve_bound_at(priced, Curve::ShortTerm),
    }
}

// Of a resource's five quantities.
fn service_bounds(on: bool, reserves: ReserveBounds, offer: OfferInRange) -> Amounts
    ensures { (c : Case) (i : ℕ) → on ≡ on_line (c.resource i) → reserves ≡ reserve_bounds_of c (c.resource i) → offer.steps ≡ offer_steps_of (c.resource i) → result ≡ amounts_of (upper_bound c) i }
{
    let energy = limits::energy_bound(on, offer);
    let regulation = reserves.regulation;
    let contingency = reserves.contingency;
    let on_line_short_term = reserves.on_line_short_term;
    let off_line_short_term = reserves.off_line_short_term;
    Amounts {
        energy,
        regulation,
        contingency,
        on_line_short_term,
        off_line_short_term,
    }
}

// ---- 13: the first quantity above its bound, by its place

// Among a resource's five, the first of them at this place.
fn provided_above(given: Amounts, most: Amounts, place: u32) -> Option<u32>
    requires { place ≤ 1000 }
    ensures { (c : Case) (x u : Schedule) (i : ℕ) → given ≡ amounts_of x i → most ≡ amounts_of u i → found_at AboveBound result ≡ first_failing (λ a. leb (x a) (u a)) AboveBound place (map (provided_quantity i) (services c.version)) }
{
    units::first_below(
        [
            (most.energy, given.energy),
            (most.regulation, given.regulation),
            (most.contingency, given.contingency),
            (most.on_line_short_term, given.on_line_short_term),
            (most.off_line_short_term, given.off_line_short_term),
        ],
        place,
    )
}

// These two ask for `Kept` and take no `KeptCase`: that one is past 13, which is tested here.
fn first_provided_above(priced: &PricedCase<'_>, kept: &[Capability]) -> Option<u32>
    requires { Kept (the_case priced.now) priced.now.case.resources kept.now }
    ensures { found_at AboveBound result ≡ first_failing (within_bound (the_case priced.now) (certificate_in priced.now.certificate)) AboveBound (first_provided (the_case priced.now).version) (across (λ i. map (provided_quantity i) (services (the_case priced.now).version)) (upto priced.now.case.resources)) }
{
    let version = priced.case.version();
    // places have 32 bits; those of resources begin behind the cleared quantities, one for each curve
    let first_provided = 1 + version.curves();
    for i in 0..priced.case.resources {
        let own = kept[i];
        let most = service_bounds(own.on_line, own.bounds, priced.offer_steps(i));
        let given = priced.certificate.amounts(i);
        let first = (first_provided + i * version.services()) as u32;
        if let Some(place) = provided_above(given, most, first) {
            return Some(place);
        }
    }
    None
}

fn first_above(priced: &PricedCase<'_>, kept: &[Capability]) -> Option<u32>
    requires { Kept (the_case priced.now) priced.now.case.resources kept.now }
    ensures { found_at AboveBound result ≡ bound_ground (the_case priced.now) (certificate_in priced.now.certificate) }
{
    let given = priced.certificate.cleared();
    let most = curve_bounds(priced);
    if let Some(place) = units::first_short(most, given, 1) {
        return Some(place);
    }
    first_provided_above(priced, kept)
}

// ---- the stages, each after those before it: an earlier answer is taken apart by let else, the refusal returned
// (01, 'Where each form belongs')

// 1 to 11.
fn form_stage(b: &[u8], q: &[u8]) -> Result<Counts, Refusal>
    ensures answer { result ≡ answered (counts_in (case_of b.now)) (first_of (grounds_to11 b.now q.now)) }
    ensures filed { IfOk result (FiledWith b.now q.now) }
{
    let earlier = case_check::case_stage(b);
    let Ok(n) = earlier else {
        return earlier;
    };
    certificate_form::form(q, n)
}

// 12.
fn prices_stage(b: &[u8], q: &[u8], n: Counts) -> Result<Counts, Refusal>
    requires { FiledWith b.now q.now n }
    ensures { result ≡ answered n (price_ground (case_of b.now) (certificate_of q.now)) }
{
    let certificate = SizedCertificate::new(q, n);
    if !certificate_form::prices_right(&certificate) {
        return Err(Refusal::PriceRange);
    }
    Ok(n)
}

// 13. What is decided of each resource is left in `kept`.
fn quantities_stage(
    priced: &PricedCase<'_>,
    n: Counts,
    kept: &mut [Capability],
) -> Result<Counts, Refusal>
    requires { most_resources ≤ length kept.old }
    ensures answer { result ≡ answered n (bound_ground (the_case priced.now) (certificate_in priced.now.certificate)) }
    ensures decided { Kept (the_case priced.now) priced.now.case.resources kept.new }
{
    capabilities::write_capabilities(&priced.case, kept);
    if let Some(place) = first_above(priced, kept) {
        return Err(Refusal::AboveBound(place));
    }
    Ok(n)
}

// 1 to 13: the counts of a case and a certificate that have passed them, or the first ground that holds. Where they pass, what is
// decided of each resource is left in `kept`.
pub fn bounds_stage(b: &[u8], q: &[u8], kept: &mut [Capability]) -> Result<Counts, Refusal>
    requires { most_resources ≤ length kept.old }
    ensures { (result ≡ answered (counts_in (case_of b.now)) (first_of (grounds_to13 b.now q.now))) × Decided b.now result kept.new }
{
    let form = form_stage(b, q);
    let Ok(n) = form else {
        return form;
    };
    let prices = prices_stage(b, q, n);
    let Ok(n) = prices else {
        return prices;
    };
    let priced = PricedCase::new(b, q, n);
    quantities_stage(&priced, n, kept)
}
