// Sums, differences, products and comparisons of figures in their units, and what turns one unit into another. A price in
// thousandths of a cent times kW is grains; so is a price in cents times thousandths of a kW.
#![tactic(auto)]

ghost use Rattle.std.specs.Prelude.{◌≡◌, map, ℤ, pos, nat_abs, ◌+◌, ◌≤◌, ◌+ℤ◌, ◌-ℤ◌, ◌*ℤ◌};
ghost use Rattle.std.specs.Int.Signed.{le_z};
ghost use Rattle.arith.specs.Sums.{min_ℤ};
ghost use Rattle.market.specs.Records.{watts, millicents, grains};
ghost use Rattle.market.specs.Fits.{Fits64};
ghost use Rattle.units.specs.Room.{SumRoom, ProductRoom};
ghost use Rattle.units.specs.Sized.{Sized};
ghost use Rattle.units.specs.Search.{first_false, reaches, short_tests};

use market::{Cents, Grains, Kw, Millicents, PerCurve, ShiftFactor, Unit, Watts};

pub fn sum<U: Unit>(a: U, b: U) -> U
    requires { SumRoom (U.number a) (U.number b) }
    ensures { result ≡ U.of (U.number a +ℤ U.number b) }
{
    U::of(a.number() + b.number())
}

pub fn difference<U: Unit>(a: U, b: U) -> U
    requires { SumRoom (U.number a) (U.number b) }
    ensures { result ≡ U.of (U.number a -ℤ U.number b) }
{
    U::of(a.number() - b.number())
}

// By the numbers, in one law for every unit: an order that each unit derives would have to be tied to its number in each.
pub fn at_least<U: Unit>(a: U, b: U) -> bool
    ensures { result ≡ le_z (U.number b) (U.number a) }
{
    a.number() >= b.number()
}

// ---- with how large they can be

pub fn sized_sum<U: Unit>(a: U, b: U) -> U
    requires { SumRoom (U.number a) (U.number b) }
    ensures { Sized (U.number result) (U.number a +ℤ U.number b) (nat_abs (U.number a) + nat_abs (U.number b)) }
{
    sum(a, b)
}

pub fn sized_difference<U: Unit>(a: U, b: U) -> U
    requires { SumRoom (U.number a) (U.number b) }
    ensures { Sized (U.number result) (U.number a -ℤ U.number b) (nat_abs (U.number a) + nat_abs (U.number b)) }
{
    difference(a, b)
}

// ---- products, and one unit in another: each names its units, since one function over any two would let a price be taken times a
// price

// A price of thousandths of a cent times an amount.
pub fn value(a: Millicents, b: Kw) -> Grains
    requires { ProductRoom a.0 b.0 }
    ensures { result ≡ grains (a.0 *ℤ b.0) }
{
    Grains(a.0 * b.0)
}

// A price in cents times a flow, in thousandths of a kW.
pub fn flow_value(a: Cents, b: Watts) -> Grains
    requires { ProductRoom a.0 b.0 }
    ensures { result ≡ grains (a.0 *ℤ b.0) }
{
    Grains(a.0 * b.0)
}

// The part of a price in cents that a factor in thousandths makes.
pub fn factored(a: Cents, factor: ShiftFactor) -> Millicents
    requires { ProductRoom a.0 factor.0 }
    ensures { result ≡ millicents (a.0 *ℤ factor.0) }
{
    Millicents(a.0 * factor.0)
}

pub fn in_millicents(a: Cents) -> Millicents
    requires { ProductRoom (pos 1000) a.0 }
    ensures { result ≡ millicents (pos 1000 *ℤ a.0) }
{
    Millicents(1000 * a.0)
}

pub fn in_watts(a: Kw) -> Watts
    requires { ProductRoom (pos 1000) a.0 }
    ensures { result ≡ watts (pos 1000 *ℤ a.0) }
{
    Watts(1000 * a.0)
}

// The lesser of 0 and a figure, by the numbers: with an order that the unit derives its `min` needs a lemma for each unit, and that of
// numbers one for all.
#[tactic(auto, using(crate::proofs::Least::least_is))]
pub fn negative_part(a: Grains) -> Grains
    requires { Fits64 a.0 }
    ensures { result ≡ grains (min_ℤ (pos 0) a.0) }
{
    Grains(a.0.min(0))
}

// ---- searches

// The first pair whose first figure is less than its second, by its number, counted from `first`.
pub fn first_below<const N: usize>(pairs: [(Kw, Kw); N], first: u32) -> Option<u32>
    requires { first + N ≤ 4294967295 }
    ensures { result ≡ first_false first (map reaches pairs.entry) }
{
    for (k, &(have, need)) in pairs.iter().enumerate() {
        if !at_least(have, need) {
            return Some(first + k as u32);
        }
    }
    None
}

// The first curve that has less than it needs, by its number, counted from `first`.
pub fn first_short(have: PerCurve<Kw>, need: PerCurve<Kw>, first: u32) -> Option<u32>
    requires { first ≤ 1000 }
    ensures { result ≡ first_false first (short_tests have need) }
{
    first_below(
        [
            (have.operating, need.operating),
            (have.regulating_plus_spinning, need.regulating_plus_spinning),
            (have.regulating, need.regulating),
            (have.short_term, need.short_term),
        ],
        first,
    )
}
