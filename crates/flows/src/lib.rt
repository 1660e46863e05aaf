// What the resources make flow over a flowgate. Energies are kept in two parts of 16 bits each, so that their products with a shift
// factor, and the sums of these, have 32 bits: the compiler then multiplies and adds several at once.
#![tactic(auto)]

ghost use Rattle.std.specs.Prelude.{◌≡◌, ◌*◌, ◌+◌, ◌<◌, ◌≤◌, pos, nat_abs, ◌+ℤ◌, ◌*ℤ◌, length};
ghost use Rattle.arith.specs.Sums.{sum_of, upto};
ghost use Rattle.market.specs.UpperBounds.{energy};
ghost use Rattle.market.specs.InWords.{kw_of};
ghost use Rattle.market.specs.Records.{watts};
ghost use Rattle.case_records.specs.Ranged.{UpTo};
ghost use Rattle.flows.specs.Parts.{range32, most_energy, EnergyBounded, high_unit, most_part, EnergyParts};
ghost use Rattle.prices.specs.PricedCase.{the_case, the_amounts};

use certificate_records::SizedCertificate;
use market::{Kw, Watts};
use prices::BoundedCase;

mod energies;

pub use energies::Energies;

// An energy is its high part times this, and its low part.
const HIGH_UNIT: u64 = 2048;

const SIGNED_HIGH_UNIT: i64 = HIGH_UNIT as i64;

// ---- energies in parts

// An energy is its high part times 2,048, and its low part.
#[derive(Clone, Copy, Drop)]
pub struct EnergyInParts {
    pub high: i16,
    pub low: i16,
}

pub const NO_ENERGY: EnergyInParts = EnergyInParts { high: 0, low: 0 };

fn unsigned(e: Kw) -> u64
    requires { UpTo e.0 most_energy }
    ensures { result ≡ nat_abs e.0 }
{
    // of a figure that is not negative, which `From` does not have
    e.0 as u64
}

// A cast, as in `unsigned`.
fn narrow(part: u64) -> i16
    requires { part ≤ most_part }
    ensures { result ≡ pos part }
{
    part as i16
}

// The parts of each resource's energy, at its own place of a lent buffer.
pub fn write_energies(certificate: &SizedCertificate<'_>, parts: &mut [EnergyInParts])
    requires bounded { EnergyBounded certificate.now.bytes.now certificate.now.resources }
    requires r_in_bounds { certificate.now.resources ≤ length parts.old }
    ensures { EnergyParts certificate.now.bytes.now certificate.now.resources parts.new }
{
    for i in 0..certificate.resources {
        let a = certificate.amounts(i);
        let e = unsigned(a.energy);
        let high = narrow(e / HIGH_UNIT);
        let low = narrow(e % HIGH_UNIT);
        parts[i] = EnergyInParts { high, low };
    }
}

// ---- flows

fn factor_at(bounded: &BoundedCase<'_>, g: usize, i: usize) -> i32
    requires { (g < bounded.now.priced.case.flowgates) × (i < bounded.now.priced.case.resources) }
    ensures { result ≡ (the_case bounded.now.priced).shift_factor g i }
{
    let factor = bounded.priced.case.shift_factor(g, i);
    // of a factor in range, which `From` does not have
    factor.0 as i32
}

// One resource more in the sum from the high parts, or from the low ones.
fn added(sum: i32, factor: i32, part: i16) -> i32
    requires { nat_abs sum + nat_abs factor * nat_abs part < range32 }
    ensures { result ≡ sum +ℤ factor *ℤ part }
{
    sum + factor * i32::from(part)
}

// Both sums together.
fn joined(high: i32, low: i32) -> Watts
    ensures { result ≡ watts (pos high_unit *ℤ high +ℤ low) }
{
    Watts(SIGNED_HIGH_UNIT * i64::from(high) + i64::from(low))
}

// What the resources make flow.
pub fn flow(energies: &Energies<'_>, g: usize) -> Watts
    requires { g < energies.now.bounded.priced.case.flowgates }
    ensures { result ≡ watts (sum_of (λ i. (the_case energies.now.bounded.priced).shift_factor g i *ℤ kw_of (the_amounts energies.now.bounded.priced) i energy) (upto energies.now.bounded.priced.case.resources)) }
{
    let mut highs: i32 = 0;
    let mut lows: i32 = 0;
    for i in 0..energies.bounded.priced.case.resources {
        let factor = factor_at(&energies.bounded, g, i);
        let part = energies.parts[i];
        highs = added(highs, factor, part.high);
        lows = added(lows, factor, part.low);
    }
    joined(highs, lows)
}
