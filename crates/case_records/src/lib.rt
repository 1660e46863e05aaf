// Records out of a case's bytes, by value: resources, zones' requirements, reserve terms, demand curves, demand, flowgates.
// Each function asks that the bytes it reads are there (specs/Places.antt), and equates its result with the definitions.
#![tactic(auto)]

ghost use Rattle.std.specs.Prelude.{◌≡◌, ◌<◌};
ghost use Rattle.wire.specs.CaseParts.{head_of, figures_of};
ghost use Rattle.market.specs.Case.{curve_steps, energy_steps};
ghost use Rattle.market.specs.Version.{version_in};
ghost use Rattle.market.specs.CaseFile.{resource_place, flowgate_place, case_of};
ghost use Rattle.market.specs.Records.{power, offer_step_of, offer_steps_of, state_of, output_limits_of, ramps_of, other_powers_of, reserve_offers_of, record_of, reserve_terms_of, terms_of, curve_step_of, curve_steps_of, zone_requirements_of};
ghost use Rattle.case_records.specs.Places.{ZoneIn, ResourceIn, FlowgateIn};

use market::{
    Breaker, Cents, Curve, CurveAmounts, CurveSteps, FACTOR_SIZE, Flags, Kind, Kw, Minutes,
    OfferSteps, OtherPowers, OutputLimits, Ramps, Reserve, ReserveOffers, ReserveTerms, Resource,
    State, Status, Step, Terms, Thousandths, ZONE_SIZE,
};
use wire::{CaseHead, FlowgateBytes, ResourceBytes};

// ---- a resource

// The status is read last: masked between the others, it makes the call for charges 2 in 100 slower.
#[tactic(auto, unfolding(market::specs::Records::state_of, market::specs::CaseFile::resource_at))]
fn state_of(resource: &ResourceBytes<'_>) -> State
    ensures { result ≡ state_of (figures_of resource.now) }
{
    State {
        kind: Kind::from(resource.u8(0)),
        zone: resource.u8(1),
        breaker: Breaker::from(resource.u8(2)),
        trip: Minutes(u32::from(resource.u8(4))),
        flags: Flags::from(resource.u8(5)),
        output: resource.signed_figure(resource.behind_flags(6)),
        status: Status::masked(resource.u8(3)),
    }
}

#[tactic(auto, unfolding(market::specs::Records::output_limits_of, market::specs::CaseFile::resource_at))]
fn limits_of(resource: &ResourceBytes<'_>) -> OutputLimits
    ensures { result ≡ output_limits_of (figures_of resource.now) }
{
    OutputLimits {
        economic_min: resource.figure(resource.behind_flags(10)),
        economic_max: resource.figure(resource.behind_flags(14)),
        regulating_min: resource.figure(resource.behind_flags(18)),
        regulating_max: resource.figure(resource.behind_flags(22)),
        emergency_min: Kw(i64::from(resource.emergency_min())),
        emergency_max: resource.figure(resource.behind_minimum(26)),
    }
}

#[tactic(auto, unfolding(market::specs::Records::ramps_of, market::specs::CaseFile::resource_at))]
fn ramps_of(resource: &ResourceBytes<'_>) -> Ramps
    ensures { result ≡ ramps_of (figures_of resource.now) }
{
    Ramps {
        up: resource.figure(resource.behind_minimum(30)),
        down: resource.figure(resource.behind_minimum(34)),
        rate: resource.figure(resource.behind_minimum(38)),
    }
}

#[tactic(auto, unfolding(market::specs::Records::other_powers_of, market::specs::CaseFile::resource_at))]
fn other_powers_of(resource: &ResourceBytes<'_>) -> OtherPowers
    ensures { result ≡ other_powers_of (figures_of resource.now) }
{
    OtherPowers {
        initial: resource.figure(resource.behind_minimum(42)),
        off_line_response: resource.figure(resource.behind_minimum(46)),
        off_line_short_term: resource.figure(resource.behind_minimum(50)),
        self_schedule: resource.figure(resource.behind_minimum(54)),
    }
}

#[tactic(auto, unfolding(market::specs::Records::reserve_offers_of, market::specs::CaseFile::resource_at))]
fn reserve_offers_of(resource: &ResourceBytes<'_>) -> ReserveOffers
    ensures { result ≡ reserve_offers_of (figures_of resource.now) }
{
    ReserveOffers {
        regulating: resource.figure(resource.behind_minimum(58)),
        contingency: resource.figure(resource.behind_minimum(62)),
        off_line_short_term: resource.figure(resource.behind_minimum(66)),
    }
}

#[tactic(auto, unfolding(market::specs::Records::offer_step_of, market::specs::CaseFile::resource_at))]
fn offer_step_of(resource: &ResourceBytes<'_>, j: usize) -> Step
    requires { j < energy_steps }
    ensures { result ≡ offer_step_of (figures_of resource.now) j }
{
    let step = resource.step(j);
    Step {
        width: Kw(i64::from(step.width)),
        price: Cents(i64::from(step.price.cast_signed())),
    }
}

#[tactic(auto, unfolding(market::specs::Records::offer_steps_of))]
pub fn offer_steps_of(resource: &ResourceBytes<'_>) -> OfferSteps
    ensures { result ≡ offer_steps_of (figures_of resource.now) }
{
    std::array::from_fn(|j| offer_step_of(resource, j))
}

#[tactic(auto, unfolding(market::specs::Records::record_of))]
pub fn record_of(resource: &ResourceBytes<'_>) -> Resource
    ensures { result ≡ record_of (figures_of resource.now) }
{
    Resource {
        state: state_of(resource),
        limits: limits_of(resource),
        ramps: ramps_of(resource),
        other_powers: other_powers_of(resource),
        offers: reserve_offers_of(resource),
    }
}

// The bytes of resource i of a case of so many zones.
pub fn resource_bytes(b: &[u8], zones: usize, i: usize) -> ResourceBytes<'_>
    requires { ResourceIn b.now zones i }
    ensures bytes { result.bytes ≡ b.entry }
    ensures at { result.at ≡ resource_place (version_in b.now) zones i }
{
    let version = wire::version_at(b);
    let first = version.head_size() + zones * ZONE_SIZE;
    ResourceBytes::new(b, first + i * version.resource_size())
}

// ---- zones, counted from 0

#[tactic(auto, unfolding(market::specs::Records::zone_requirements_of, market::specs::CaseFile::case_as))]
pub fn zone_at(b: &[u8], z: usize) -> CurveAmounts
    requires { ZoneIn b.now z }
    ensures { result ≡ zone_requirements_of (case_of b.now) z }
{
    wire::per_curve_at(b, wire::version_at(b).head_size() + z * ZONE_SIZE)
}

// ---- the head of a case: demand, reserve terms, demand curves

#[tactic(auto, unfolding(market::specs::CaseFile::case_as))]
pub fn demand(head: &CaseHead<'_>) -> Kw
    ensures { result ≡ power (head_of head.now).demand }
{
    wire::figure_at(head.bytes, 8)
}

// Of one reserve.
#[tactic(auto, unfolding(market::specs::Records::reserve_terms_of))]
fn terms_of(head: &CaseHead<'_>, reserve: Reserve) -> ReserveTerms
    ensures { result ≡ reserve_terms_of (head_of head.now) reserve }
{
    let terms = head.terms(reserve);
    ReserveTerms {
        multiplier: Thousandths(terms.multiplier),
        minutes: Minutes(terms.minutes),
        share: Thousandths(terms.share),
        requirement: Kw(i64::from(terms.requirement)),
    }
}

#[tactic(auto, unfolding(market::specs::Records::terms_of))]
pub fn terms(head: &CaseHead<'_>) -> Terms
    ensures { result ≡ terms_of (head_of head.now) }
{
    Terms {
        regulating: terms_of(head, Reserve::Regulating),
        contingency: terms_of(head, Reserve::Contingency),
        short_term: terms_of(head, Reserve::ShortTerm),
    }
}

#[tactic(auto, unfolding(market::specs::Records::curve_step_of))]
fn curve_step_at(head: &CaseHead<'_>, curve: Curve, j: usize) -> Step
    requires { j < curve_steps }
    ensures { result ≡ curve_step_of (head_of head.now) curve j }
{
    let step = head.step(curve, j);
    Step {
        width: Kw(i64::from(step.width)),
        price: Cents(i64::from(step.price)),
    }
}

#[tactic(auto, unfolding(market::specs::Records::curve_steps_of))]
pub fn curve_at(head: &CaseHead<'_>, curve: Curve) -> CurveSteps
    ensures { result ≡ curve_steps_of (head_of head.now) curve }
{
    std::array::from_fn(|j| curve_step_at(head, curve, j))
}

// ---- flowgates

// The bytes of flowgate f of a case that counts so many resources and zones. It adds up its place itself, since
// `market::flowgate_place` asks that the counts are in range, and this only that the bytes are there.
pub fn flowgate_bytes(b: &[u8], resources: usize, zones: usize, f: usize) -> FlowgateBytes<'_>
    requires { FlowgateIn b.now resources zones f }
    ensures bytes { result.bytes ≡ b.entry }
    ensures at { result.at ≡ flowgate_place (version_in b.now) resources zones f }
    ensures resources { result.resources ≡ resources }
{
    let version = wire::version_at(b);
    let at = version.head_size()
        + zones * ZONE_SIZE
        + resources * version.resource_size()
        + f * (version.flowgate_head_size() + resources * FACTOR_SIZE);
    FlowgateBytes::new(b, at, resources)
}
