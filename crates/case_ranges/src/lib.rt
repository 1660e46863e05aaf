// Ground 5 of the case check: every field of a case file within its range (01, 'The case file').
// Each function tests some fields; all but one end at the first that is out of range. They take what holds these fields: the bytes of a
// resource or a flowgate, the head, a case past refusals 1 to 4, or bytes of which they ask that the fields lie within.
#![tactic(auto)]

ghost use Rattle.std.specs.Prelude.{◌≡◌, ◌+◌, ◌*◌, ◌<◌, ◌≤◌};
ghost use Rattle.arith.specs.Sums.{upto, all};
ghost use Rattle.market.specs.Bytes.{u8_at, u32_at, i32_at, within, either_way};
ghost use Rattle.market.specs.Version.{version_in};
ghost use Rattle.market.specs.Case.{reserves, curves, curve_steps, energy_steps};
ghost use Rattle.market.specs.CaseFile.{head_size, zone_size, resource_size, case_of};
ghost use Rattle.market.specs.CaseCheck.{powers, resource_in_range, reserve_in_range, flowgate_in_range, fields_in_range};
ghost use Rattle.wire.specs.Within.{Within};
ghost use Rattle.wire.specs.CaseParts.{head_of, figures_of};
ghost use Rattle.case_reader.specs.Reader.{case_in};
ghost use Rattle.case_ranges.specs.Pieces.{number_at_most, state_in_range, offer_step_in_range, curve_step_in_range, curve_in_range, zone_in_range, resource_numbered_in_range, factor_in_range, flowgate_in_range_at};

use case_reader::SizedCase;
use market::{CURVE_STEPS, Curve, ENERGY_STEPS, Reserve, Status, ZONE_SIZE};
use wire::{CaseHead, FlowgateBytes, ResourceBytes};

fn either_way(v: i64, most: u32) -> bool
    ensures { result ≡ either_way most v }
{
    (-i64::from(most)..=i64::from(most)).contains(&v)
}

pub fn at_most(b: &[u8], at: usize, most: u32) -> bool
    requires { Within b.now at 4 }
    ensures { result ≡ within 0 most (u32_at b.now at) }
{
    wire::u32_at(b, at) <= most
}

pub fn word_either_way(b: &[u8], at: usize, most: u32) -> bool
    requires { Within b.now at 4 }
    ensures { result ≡ either_way most (i32_at b.now at) }
{
    either_way(wire::i32_at(b, at), most)
}

// The n numbers from a place on.
pub fn all_at_most(b: &[u8], at: usize, n: usize, most: u32) -> bool
    requires { Within b.now at (n * 4) }
    ensures { result ≡ all (number_at_most most b.now at) (upto n) }
{
    (0..n).all(|k| at_most(b, at + k * 4, most))
}

// ---- a resource
// The n numbers from a place of its record on.
pub fn run_at_most(resource: &ResourceBytes<'_>, place: usize, n: usize, most: u32) -> bool
    requires { place + n * 4 ≤ resource_size (version_in resource.now.bytes.now) }
    ensures { result ≡ all (number_at_most most resource.now.bytes.now (resource.now.at + place)) (upto n) }
{
    all_at_most(resource.bytes, resource.at + place, n, most)
}

fn byte_between(resource: &ResourceBytes<'_>, place: usize, low: usize, high: usize) -> bool
    requires { place < resource_size (version_in resource.now.bytes.now) }
    ensures { result ≡ within low high (u8_at resource.now.bytes.now (resource.now.at + place)) }
{
    (low..=high).contains(&usize::from(resource.u8(place)))
}

#[tactic(auto, unfolding(market::specs::CaseFile::resource_at))]
pub fn state_in_range(resource: &ResourceBytes<'_>, zones: usize) -> bool
    ensures { result ≡ state_in_range zones (figures_of resource.now) }
{
    byte_between(resource, 0, 1, 3)
        && byte_between(resource, 1, 1, zones)
        && byte_between(resource, 2, 0, 1)
        && Status::try_from(resource.u8(3)).is_ok()
        && either_way(resource.i32(resource.behind_flags(6)), 2000000)
}

// The three pairs of limits; initial energy, the two off-line limits, self-schedule.
#[tactic(auto, using(crate::proofs::Places::powers_runs))]
fn powers_in_range(resource: &ResourceBytes<'_>) -> bool
    ensures { result ≡ all (within 0 2000000) (powers (figures_of resource.now)) }
{
    run_at_most(resource, resource.behind_flags(10), 4, 2000000)
        && resource.emergency_min() <= 2000000
        && resource.u32(resource.behind_minimum(26)) <= 2000000
        && run_at_most(resource, resource.behind_minimum(42), 4, 2000000)
}

fn offer_step_in_range(resource: &ResourceBytes<'_>, j: usize) -> bool
    requires { j < energy_steps }
    ensures { result ≡ offer_step_in_range (figures_of resource.now) j }
{
    let step = resource.step(j);
    step.width <= 2000000 && either_way(i64::from(step.price.cast_signed()), 400000)
}

fn offer_in_range(resource: &ResourceBytes<'_>) -> bool
    ensures { result ≡ all (offer_step_in_range (figures_of resource.now)) (upto energy_steps) }
{
    (0..ENERGY_STEPS).all(|j| offer_step_in_range(resource, j))
}

// `case_soundness::resource_sound` is no twin: it tests 5 to 7 together, and true is all that it says.
#[tactic(auto, using(crate::proofs::Places::ramps_run, crate::proofs::Places::prices_run), unfolding(market::specs::CaseCheck::resource_in_range))]
fn resource_in_range(resource: &ResourceBytes<'_>, zones: usize) -> bool
    ensures { result ≡ resource_in_range zones (figures_of resource.now) }
{
    // ramps stand at 30 behind the emergency minimum, reserve prices at 58
    state_in_range(resource, zones)
        && powers_in_range(resource)
        && run_at_most(resource, resource.behind_minimum(30), 3, 400000)
        && run_at_most(resource, resource.behind_minimum(58), 3, 400000)
        && offer_in_range(resource)
}

fn resources_in_range(case: &SizedCase<'_>) -> bool
    ensures { result ≡ all (resource_numbered_in_range (case_in case.now)) (upto case.now.resources) }
{
    (0..case.resources).all(|i| resource_in_range(&case.resource_bytes(i), case.zones))
}

// ---- market-wide figures
// Multiplier, minutes, largest share and market requirement of a reserve.
#[tactic(auto, unfolding(market::specs::CaseCheck::reserve_in_range))]
fn reserve_in_range(head: &CaseHead<'_>, reserve: Reserve) -> bool
    ensures { result ≡ reserve_in_range (head_of head.now) reserve }
{
    let terms = head.terms(reserve);
    (1..=5000).contains(&terms.multiplier)
        && (1..=60).contains(&terms.minutes)
        && (0..=1000).contains(&terms.share)
        && terms.requirement <= 8000000
}

#[tactic(auto, unfolding(arith::specs::Sums::all))]
pub fn reserves_in_range(head: &CaseHead<'_>) -> bool
    ensures { result ≡ all (reserve_in_range (head_of head.now)) reserves }
{
    Reserve::ALL
        .iter()
        .all(|reserve| reserve_in_range(head, *reserve))
}

// This and the next stand beside `offer_step_in_range` and `offer_in_range`: another part of the file, a larger width, a price without a
// sign, fewer steps. What both share is `step`.
fn curve_step_in_range(head: &CaseHead<'_>, curve: Curve, j: usize) -> bool
    requires { j < curve_steps }
    ensures { result ≡ curve_step_in_range (head_of head.now) curve j }
{
    let step = head.step(curve, j);
    step.width <= 8000000 && step.price <= 400000
}

fn curve_in_range(head: &CaseHead<'_>, curve: Curve) -> bool
    ensures { result ≡ curve_in_range (head_of head.now) curve }
{
    (0..CURVE_STEPS).all(|j| curve_step_in_range(head, curve, j))
}

#[tactic(auto, unfolding(arith::specs::Sums::all))]
pub fn curves_in_range(head: &CaseHead<'_>) -> bool
    ensures { result ≡ all (curve_in_range (head_of head.now)) (curves (head_of head.now).version) }
{
    Curve::ALL.iter().all(|curve| curve_in_range(head, *curve))
}

// ---- zones and flowgates
// Of bytes and a count, since a reader asks for more than that the zones are there. Zone by zone, as the definition goes: of one run
// of all their numbers it would have to be shown that it is the zones' runs.
pub fn zones_in_range(b: &[u8], zones: usize) -> bool
    requires { Within b.now (head_size (version_in b.now)) (zones * zone_size) }
    ensures { result ≡ all (zone_in_range (case_of b.now)) (upto zones) }
{
    let first = wire::version_at(b).head_size();
    (0..zones).all(|z| all_at_most(b, first + z * ZONE_SIZE, 4, 2000000))
}

fn factor_in_range(flowgate: &FlowgateBytes<'_>, i: usize) -> bool
    requires { i < flowgate.now.resources }
    ensures { result ≡ factor_in_range flowgate.now.bytes.now flowgate.now.at i }
{
    either_way(flowgate.factor(i), 1000)
}

// Every one is looked at, also after one that is out of range: with no way out of the loop the compiler tests several at once. With `all`
// the check of 64 resources takes 0.90 of the baseline's time (bar 0.85), and charges 1.00 (bar 0.95), which so are met.
fn factors_in_range(flowgate: &FlowgateBytes<'_>) -> bool
    ensures { result ≡ all (factor_in_range flowgate.now.bytes.now flowgate.now.at) (upto flowgate.now.resources) }
{
    (0..flowgate.resources).fold(true, |right, i| right & factor_in_range(flowgate, i))
}

fn flowgate_in_range(flowgate: &FlowgateBytes<'_>) -> bool
    ensures { result ≡ flowgate_in_range_at flowgate.now.bytes.now flowgate.now.at flowgate.now.resources }
{
    either_way(flowgate.limit(), 20000000) && factors_in_range(flowgate)
}

fn flowgate_numbered_in_range(case: &SizedCase<'_>, f: usize) -> bool
    requires { f < case.now.flowgates }
    ensures { result ≡ flowgate_in_range (case_in case.now) f }
{
    flowgate_in_range(&case.flowgate_bytes(f))
}

pub fn flowgates_in_range(case: &SizedCase<'_>) -> bool
    ensures { result ≡ all (flowgate_in_range (case_in case.now)) (upto case.now.flowgates) }
{
    (0..case.flowgates).all(|f| flowgate_numbered_in_range(case, f))
}

// ---- the whole file
#[tactic(auto, unfolding(market::specs::CaseCheck::fields_in_range, market::specs::CaseFile::case_as))]
pub fn fields_in_range(case: &SizedCase<'_>) -> bool
    ensures { result ≡ fields_in_range (case_in case.now) }
{
    let head = case.head();
    at_most(case.bytes, 8, 128000000)
        && reserves_in_range(&head)
        && curves_in_range(&head)
        && zones_in_range(case.bytes, case.zones)
        && resources_in_range(case)
        && flowgates_in_range(case)
}
