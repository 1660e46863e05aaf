// The case check: grounds 1 to 7 of a case file, each tested only where no earlier one holds anywhere in the file
// (01, 'How each operation refuses'). `case_stage` is what the other operations start from.
#![tactic(auto)]

ghost use Rattle.std.specs.Prelude.{◌≡◌, ◌+◌, ◌<◌, ◌≤◌, true, length, pos, IfOk, ◌==◌, int_le};
ghost use Rattle.arith.specs.Sums.{upto, all};
ghost use Rattle.market.specs.Bytes.{u8_at, signed};
ghost use Rattle.market.specs.Case.{energy_steps, width_of, curves};
ghost use Rattle.market.specs.CaseFile.{case_size, case_of};
ghost use Rattle.market.specs.CaseCheck.{CountsWithin, length_right, version_right, counts_right, fields_in_range, steps_follow, steps_rule, energy_steps_right, pairs_ordered, limits_ordered};
ghost use Rattle.market.specs.Records.{counts_in};
ghost use Rattle.market.specs.Refusals.{answered, first_of};
ghost use Rattle.market.specs.Numbers.{field_grounds};
ghost use Rattle.market.specs.Outcome.{case_grounds, case_answer};
ghost use Rattle.wire.specs.Within.{Within};
ghost use Rattle.wire.specs.CaseParts.{head_of, figures_of};
ghost use Rattle.case_reader.specs.Reader.{case_in};
ghost use Rattle.case_check.specs.Stages.{shape_grounds, CaseBytesOf, head_right, SoundCase};
ghost use Rattle.case_check.specs.Pieces.{offer_starts, offer_follows, offer_right, curve_follows, curve_right};

use case_reader::SizedCase;
use market::{
    Counts, Curve, ENERGY_STEPS, LEAST_CASE_SIZE, MOST_FLOWGATES, MOST_RESOURCES, MOST_ZONES,
    Refusal,
};
use wire::{CaseHead, FileStep, ResourceBytes};

// ---- 6: steps of width 0 come last, with price 0; prices keep their order; energy widths have a largest sum
// Whether `next` may stand after a step; `ordered` says whether their prices stand in their order.
fn follows(step: FileStep, next: FileStep, ordered: bool) -> bool
    ensures { result ≡ steps_follow (λ p q. ordered) step.width (pos 0) next.width (pos next.price) }
{
    if next.width == 0 {
        return next.price == 0;
    }
    step.width > 0 && ordered
}

// Whether a step may be the first: none stands before it.
fn starts(step: FileStep) -> bool
    ensures { result ≡ steps_follow (λ p q. true) 1 (pos 0) step.width (pos step.price) }
{
    let none = FileStep { width: 1, price: 0 };
    follows(none, step, true)
}

// Of two prices with a sign.
fn not_above(a: u32, b: u32) -> bool
    ensures { result ≡ int_le (signed 2147483648 a) (signed 2147483648 b) }
{
    a.cast_signed() <= b.cast_signed()
}

fn offer_starts(resource: &ResourceBytes<'_>) -> bool
    ensures { result ≡ offer_starts (figures_of resource.now) }
{
    starts(resource.step(0))
}

fn offer_step_follows(resource: &ResourceBytes<'_>, j: usize) -> bool
    requires { j < 9 }
    ensures { result ≡ offer_follows (figures_of resource.now) j }
{
    let step = resource.step(j);
    let next = resource.step(j + 1);
    follows(step, next, not_above(step.price, next.price))
}

fn offer_follows(resource: &ResourceBytes<'_>) -> bool
    ensures { result ≡ all (offer_follows (figures_of resource.now)) (upto 9) }
{
    (0..9).all(|j| offer_step_follows(resource, j))
}

fn offer_width(resource: &ResourceBytes<'_>) -> u64
    ensures { result ≡ width_of (figures_of resource.now).step_width energy_steps }
{
    let mut sum: u64 = 0;
    for j in 0..ENERGY_STEPS {
        sum += u64::from(resource.step(j).width);
    }
    sum
}

#[tactic(auto, unfolding(market::specs::CaseCheck::energy_steps_right, market::specs::CaseCheck::steps_right))]
fn offer_right(resource: &ResourceBytes<'_>) -> bool
    ensures { result ≡ energy_steps_right (figures_of resource.now) }
{
    offer_starts(resource) && offer_follows(resource) && offer_width(resource) <= 2000000
}

fn offers_right(case: &SizedCase<'_>) -> bool
    ensures { result ≡ all (offer_right (case_in case.now)) (upto case.now.resources) }
{
    (0..case.resources).all(|i| offer_right(&case.resource_bytes(i)))
}

// Beside `offer_step_follows`: other parts of the file, and prices that never rise. The rule that both keep is `follows`.
fn curve_step_follows(head: &CaseHead<'_>, curve: Curve, j: usize) -> bool
    requires { j < 3 }
    ensures { result ≡ curve_follows (head_of head.now) curve j }
{
    let step = head.step(curve, j);
    let next = head.step(curve, j + 1);
    follows(step, next, next.price <= step.price)
}

fn curve_follows(head: &CaseHead<'_>, curve: Curve) -> bool
    ensures { result ≡ all (curve_follows (head_of head.now) curve) (upto 3) }
{
    (0..3).all(|j| curve_step_follows(head, curve, j))
}

#[tactic(auto, unfolding(market::specs::CaseCheck::steps_right))]
fn curve_right(head: &CaseHead<'_>, curve: Curve) -> bool
    ensures { result ≡ curve_right (head_of head.now) curve }
{
    starts(head.step(curve, 0)) && curve_follows(head, curve)
}

#[tactic(auto, unfolding(arith::specs::Sums::all))]
fn curves_right(head: &CaseHead<'_>) -> bool
    ensures { result ≡ all (curve_right (head_of head.now)) (curves (head_of head.now).version) }
{
    Curve::ALL.iter().all(|curve| curve_right(head, *curve))
}

#[tactic(auto, unfolding(market::specs::CaseCheck::steps_rule, market::specs::CaseFile::case_as))]
fn steps_right(case: &SizedCase<'_>) -> bool
    ensures { result ≡ steps_rule (case_in case.now) }
{
    curves_right(&case.head()) && offers_right(case)
}

// ---- 7: no minimum above its maximum
#[tactic(auto, unfolding(market::specs::CaseCheck::pairs_ordered, market::specs::CaseFile::resource_at))]
fn pairs_ordered(resource: &ResourceBytes<'_>) -> bool
    ensures { result ≡ pairs_ordered (figures_of resource.now) }
{
    // economic, regulating, emergency
    resource.u32(resource.behind_flags(10)) <= resource.u32(resource.behind_flags(14))
        && resource.u32(resource.behind_flags(18)) <= resource.u32(resource.behind_flags(22))
        && resource.emergency_min() <= resource.u32(resource.behind_minimum(26))
}

fn limits_ordered(case: &SizedCase<'_>) -> bool
    ensures { result ≡ limits_ordered (case_in case.now) }
{
    (0..case.resources).all(|i| pairs_ordered(&case.resource_bytes(i)))
}

// ---- 1 to 4: the file's shape
// 1, and 8 of a certificate: at least so many bytes, and as many as the length field says.
#[tactic(auto, unfolding(market::specs::CaseCheck::length_right))]
pub fn length_right(b: &[u8], least: usize) -> bool
    requires { 4 ≤ least }
    ensures { result ≡ length_right least b.now }
{
    b.len() >= least && u64::from(wire::u32_at(b, 0)) + 4 == b.len() as u64
}

#[tactic(auto, unfolding(market::specs::CaseCheck::version_right))]
pub fn version_right(b: &[u8]) -> bool
    requires { Within b.now 4 1 }
    ensures { result ≡ version_right b.now }
{
    market::Version::try_from(wire::u8_at(b, 4)).is_ok()
}

// It reads, and is no conversion.
pub fn count_at(b: &[u8], at: usize) -> usize
    requires { Within b.now at 1 }
    ensures { result ≡ u8_at b.now at }
{
    usize::from(wire::u8_at(b, at))
}

pub fn counts_at(b: &[u8]) -> Counts
    requires { Within b.now 0 8 }
    ensures { result ≡ counts_in (case_of b.now) }
{
    Counts {
        version: wire::version_at(b),
        resources: count_at(b, 5),
        zones: count_at(b, 6),
        flowgates: count_at(b, 7),
    }
}

#[tactic(auto, unfolding(market::specs::CaseCheck::counts_right))]
pub fn counts_right(n: Counts) -> bool
    ensures { result ≡ counts_right n.resources n.zones n.flowgates }
{
    (1..=MOST_RESOURCES).contains(&n.resources)
        && (1..=MOST_ZONES).contains(&n.zones)
        && (0..=MOST_FLOWGATES).contains(&n.flowgates)
}

// Beside `certificate_form::size_right`: a line each, over the file's own size.
fn size_right(b: &[u8], n: Counts) -> bool
    requires { CountsWithin n.resources n.zones n.flowgates }
    ensures { result ≡ (length b.now == case_size n.version n.resources n.zones n.flowgates) }
{
    b.len() == market::case_size(n)
}

// ---- the stages
// 1 to 4.
#[tactic(auto, unfolding(crate::specs::Stages::shape_grounds, market::specs::Refusals::first_of, market::specs::CaseCheck::case_size_right))]
fn shape_stage(b: &[u8]) -> Result<Counts, Refusal>
    ensures answer { result ≡ answered (counts_in (case_of b.now)) (first_of (shape_grounds b.now)) }
    ensures shaped { IfOk result (CaseBytesOf b.now) }
{
    if !length_right(b, LEAST_CASE_SIZE) {
        return Err(Refusal::CaseLength);
    }
    if !version_right(b) {
        return Err(Refusal::CaseVersion);
    }
    let n = counts_at(b);
    if !counts_right(n) {
        return Err(Refusal::Counts);
    }
    if !size_right(b, n) {
        return Err(Refusal::CaseSize);
    }
    Ok(n)
}

// 5 to 7, one after the other, of a case that counts n.
#[tactic(auto, unfolding(market::specs::Refusals::first_of))]
fn grounds_stage(case: &SizedCase<'_>, n: Counts) -> Result<Counts, Refusal>
    ensures { result ≡ answered n (first_of (field_grounds case.now.bytes.now)) }
{
    if !case_ranges::fields_in_range(case) {
        return Err(Refusal::FieldRange);
    }
    if !steps_right(case) {
        return Err(Refusal::StepRule);
    }
    if !limits_ordered(case) {
        return Err(Refusal::LimitPair);
    }
    Ok(n)
}

// 5 and 6 of the head.
#[tactic(auto, unfolding(market::specs::CaseFile::case_as))]
fn head_right(head: &CaseHead<'_>) -> bool
    ensures { result ≡ head_right (head_of head.now) }
{
    case_ranges::at_most(head.bytes, 8, 128000000)
        && case_ranges::reserves_in_range(head)
        && case_ranges::curves_in_range(head)
        && curves_right(head)
}

// 5 to 7 at once. True says that all pass; false says nothing: `grounds_stage` then finds the ground.
fn sound(case: &SizedCase<'_>) -> bool
    ensures { result ≡ true → SoundCase (case_in case.now) }
{
    head_right(&case.head())
        && case_ranges::zones_in_range(case.bytes, case.zones)
        && case_soundness::resources_sound(case.bytes, case.resources, case.zones)
        && case_ranges::flowgates_in_range(case)
}

// 1 to 7: the counts of a valid case, or the first ground that holds.
pub fn case_stage(b: &[u8]) -> Result<Counts, Refusal>
    ensures { result ≡ answered (counts_in (case_of b.now)) (first_of (case_grounds b.now)) }
{
    // a stage's answer is taken apart by let else, the refusal returned (01, 'Where each form belongs')
    let shape = shape_stage(b);
    let Ok(n) = shape else {
        return shape;
    };
    let case = SizedCase::new(b, n);
    if sound(&case) {
        return shape;
    }
    grounds_stage(&case, n)
}

#[tactic(auto, unfolding(market::specs::Outcome::case_answer))]
pub fn check_case(b: &[u8]) -> Result<(), Refusal>
    ensures { result ≡ case_answer b.now }
{
    case_stage(b)?;
    Ok(())
}
