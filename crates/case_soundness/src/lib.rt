// A case's resources tested at once for grounds 5, 6 and 7. True says that each ground passes; false says nothing: the grounds'
// own tests then find the first that holds.
#![tactic(auto)]

ghost use Rattle.std.specs.Prelude.{◌≡◌, ℕ, ◌+◌, ◌<◌, ◌≤◌, true};
ghost use Rattle.market.specs.Version.{version_in};
ghost use Rattle.market.specs.CaseFile.{resource_size, case_of};
ghost use Rattle.market.specs.Bytes.{u32_at};
ghost use Rattle.wire.specs.CaseParts.{figures_of};
ghost use Rattle.case_ranges.specs.Pieces.{ResourcesIn};
ghost use Rattle.case_soundness.specs.Sound.{SoundPair, SoundPowers, SoundOffer, SoundResource};
ghost use Rattle.case_soundness.specs.Ranks.{rank_of};

use market::{ENERGY_STEPS, ZONE_SIZE};
use wire::ResourceBytes;

// Of a pair of limits: the maximum is in range and the minimum not above it, so that it is in range too.
fn pair_sound(low: u32, high: u32) -> bool
    ensures { result ≡ true → SoundPair low high }
{
    (high <= 2000000) & (low <= high)
}

// Of the pair at a place of the record.
fn neighbours_sound(resource: &ResourceBytes<'_>, place: usize) -> bool
    requires { place + 8 ≤ resource_size (version_in resource.now.bytes.now) }
    ensures { result ≡ true → SoundPair (u32_at resource.now.bytes.now (resource.now.at + place)) (u32_at resource.now.bytes.now (resource.now.at + (place + 4))) }
{
    pair_sound(resource.u32(place), resource.u32(place + 4))
}

// Of the emergency minimum, which not every version has, and the emergency maximum.
#[tactic(auto, unfolding(market::specs::CaseFile::resource_at))]
fn emergency_sound(resource: &ResourceBytes<'_>) -> bool
    ensures { result ≡ true → SoundPair (figures_of resource.now).emergency_min (figures_of resource.now).emergency_max }
{
    let most = resource.u32(resource.behind_minimum(26));
    pair_sound(resource.emergency_min(), most)
}

#[tactic(auto, using(crate::proofs::Parts::powers_sound))]
fn powers_sound(resource: &ResourceBytes<'_>) -> bool
    ensures { result ≡ true → SoundPowers (figures_of resource.now) }
{
    // economic, regulating; initial energy, the two off-line limits, self-schedule
    neighbours_sound(resource, resource.behind_flags(10))
        && neighbours_sound(resource, resource.behind_flags(18))
        && emergency_sound(resource)
        && case_ranges::run_at_most(resource, resource.behind_minimum(42), 4, 2000000)
}

// Where a step stands among the prices, moved up so that the lowest is 0, and doubled: one of width 0 and price 0 between the highest
// price in range and the next one above it, one of width 0 and another price further on.
#[tactic(auto, unfolding(crate::specs::Ranks::rank_of))]
fn rank(width: u32, price: u32, moved: u32) -> u64
    ensures { result ≡ rank_of width price moved }
{
    if width == 0 {
        1600001 + u64::from(price)
    } else {
        2 * u64::from(moved)
    }
}

// Ranks that never fall, up to that of a step of width 0 and price 0, are steps that keep their rule, with prices in range. The loop
// ends at the first that falls: looked at to the end, the ten keep more numbers than there are registers, some 800 instructions a check.
fn offer_sound(resource: &ResourceBytes<'_>) -> bool
    ensures { result ≡ true → SoundOffer (figures_of resource.now) }
{
    let mut last: u64 = 0;
    let mut sum: u64 = 0;
    for j in 0..ENERGY_STEPS {
        let step = resource.step(j);
        let moved = step.price.wrapping_add(400000);
        let here = rank(step.width, step.price, moved);
        if here < last {
            return false;
        }
        last = here;
        sum += u64::from(step.width);
    }
    (last <= 1600001) & (sum <= 2000000)
}

#[tactic(auto, using(crate::proofs::Parts::resource_sound, case_ranges::proofs::Places::ramps_run, case_ranges::proofs::Places::prices_run))]
fn resource_sound(resource: &ResourceBytes<'_>, zones: usize) -> bool
    ensures { result ≡ true → SoundResource zones (figures_of resource.now) }
{
    // ramps stand at 30 behind the emergency minimum, reserve prices at 58
    case_ranges::state_in_range(resource, zones)
        && powers_sound(resource)
        && case_ranges::run_at_most(resource, resource.behind_minimum(30), 3, 400000)
        && case_ranges::run_at_most(resource, resource.behind_minimum(58), 3, 400000)
        && offer_sound(resource)
}

// Of bytes and counts, since a reader asks for more than that the resources are there. Kept apart from the stage that calls it: in one
// function with that, the loop has too few registers and reads the slice's address again for each number.
#[inline(never)]
pub fn resources_sound(b: &[u8], resources: usize, zones: usize) -> bool
    requires { ResourcesIn b.now resources zones }
    ensures { result ≡ true → (i : ℕ) → i < resources → SoundResource zones ((case_of b.now).resource i) }
{
    let version = wire::version_at(b);
    let first = version.head_size() + zones * ZONE_SIZE;
    (0..resources).all(|i| {
        resource_sound(
            &ResourceBytes::new(b, first + i * version.resource_size()),
            zones,
        )
    })
}
