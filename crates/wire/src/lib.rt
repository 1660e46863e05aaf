// Big-endian numbers at a place of a slice of bytes, out of it, plain or in their unit, and into it. Each function asks that the bytes that it
// reads or writes lie within the slice. There is one for each width: std has no trait that `from_be_bytes` and `to_be_bytes` of two
// widths have in common, and with one of our own each width would have an `impl` of as many methods as it has functions here.
#![tactic(auto)]

ghost use Rattle.std.specs.Prelude.{◌≡◌, ◌+◌, ◌<◌, [], ◌∷◌, pos};
ghost use Rattle.market.specs.Bytes.{u8_at, u16_at, u32_at, i16_at, i32_at};
ghost use Rattle.market.specs.Version.{version_in};
ghost use Rattle.market.specs.Numbers.{u16_bytes, u32_bytes, i16, i32, field_bytes};
ghost use Rattle.wire.specs.Within.{Within, Signed, written};

use market::{PerCurve, Unit, Version};

mod case_parts;

pub use case_parts::{CaseHead, FileStep, FileTerms, FlowgateBytes, ResourceBytes};

pub fn u8_at(b: &[u8], at: usize) -> u8
    requires { Within b.now at 1 }
    ensures { result ≡ u8_at b.now at }
{
    b[at]
}

pub fn u16_at(b: &[u8], at: usize) -> u32
    requires { Within b.now at 2 }
    ensures { (result ≡ u16_at b.now at) × (result < 65536) }
{
    u32::from(u16::from_be_bytes([b[at], b[at + 1]]))
}

pub fn u32_at(b: &[u8], at: usize) -> u32
    requires { Within b.now at 4 }
    ensures { result ≡ u32_at b.now at }
{
    u32::from_be_bytes([b[at], b[at + 1], b[at + 2], b[at + 3]])
}

pub fn i16_at(b: &[u8], at: usize) -> i64
    requires { Within b.now at 2 }
    ensures { result ≡ i16_at b.now at }
{
    i64::from(i16::from_be_bytes([b[at], b[at + 1]]))
}

pub fn i32_at(b: &[u8], at: usize) -> i64
    requires { Within b.now at 4 }
    ensures { result ≡ i32_at b.now at }
{
    i64::from(u32_at(b, at).cast_signed())
}

// The version of a case or a certificate; of one that is not known, the nearest.
pub fn version_at(b: &[u8]) -> Version
    requires { Within b.now 4 1 }
    ensures { result ≡ version_in b.now }
{
    Version::nearest(u8_at(b, 4))
}

// ---- a figure in its unit

pub fn figure_at<U: Unit>(b: &[u8], at: usize) -> U
    requires { Within b.now at 4 }
    ensures { result ≡ U.of (pos (u32_at b.now at)) }
{
    U::of(i64::from(u32_at(b, at)))
}

pub fn signed_figure_at<U: Unit>(b: &[u8], at: usize) -> U
    requires { Within b.now at 4 }
    ensures { result ≡ U.of (i32_at b.now at) }
{
    U::of(i32_at(b, at))
}

// A figure for each demand curve, one behind the other from a place on.
pub fn per_curve_at<U: Unit>(b: &[u8], at: usize) -> PerCurve<U>
    requires { Within b.now at 16 }
    ensures operating { result.operating ≡ U.of (pos (u32_at b.now at)) }
    ensures regulating_plus_spinning { result.regulating_plus_spinning ≡ U.of (pos (u32_at b.now (at + 4))) }
    ensures regulating { result.regulating ≡ U.of (pos (u32_at b.now (at + 8))) }
    ensures short_term { result.short_term ≡ U.of (pos (u32_at b.now (at + 12))) }
{
    PerCurve {
        operating: figure_at(b, at),
        regulating_plus_spinning: figure_at(b, at + 4),
        regulating: figure_at(b, at + 8),
        short_term: figure_at(b, at + 12),
    }
}

// ---- into a slice: the other bytes stay as they are
// A number for one byte or two is a u32 too: a narrower type would ask more of callers.

pub fn put_u8(out: &mut [u8], at: usize, n: u32)
    requires { Within out.old at 1 × (n < 256) }
    ensures { out.new ≡ written at (n ∷ []) out.old }
{
    out[at] = n as u8;
}

pub fn put_u16(out: &mut [u8], at: usize, n: u32)
    requires { Within out.old at 2 }
    ensures { out.new ≡ written at (u16_bytes n) out.old }
{
    out[at..at + 2].copy_from_slice(&n.to_be_bytes()[2..]);
}

pub fn put_u32(out: &mut [u8], at: usize, n: u32)
    requires { Within out.old at 4 }
    ensures { out.new ≡ written at (u32_bytes n) out.old }
{
    out[at..at + 4].copy_from_slice(&n.to_be_bytes());
}

#[tactic(auto, unfolding(market::specs::Numbers::field_bytes))]
pub fn put_i16(out: &mut [u8], at: usize, v: i64)
    requires { Within out.old at 2 × Signed 32768 v }
    ensures { out.new ≡ written at (field_bytes i16 v) out.old }
{
    put_u16(out, at, u32::from((v as i16).cast_unsigned()));
}

#[tactic(auto, unfolding(market::specs::Numbers::field_bytes))]
pub fn put_i32(out: &mut [u8], at: usize, v: i64)
    requires { Within out.old at 4 × Signed 2147483648 v }
    ensures { out.new ≡ written at (field_bytes i32 v) out.old }
{
    put_u32(out, at, (v as i32).cast_unsigned());
}
