// The layout of the two files after length and version: which field each number has, how wide it is, what number stands
// at its place and which numbers fit it. Reading and writing go by this one description (01, 'The case file').
#![tactic(auto)]

ghost use Rattle.std.specs.Prelude.{◌≡◌, ℕ, ◌<◌, ◌≤◌, length, get_or};
ghost use Rattle.market.specs.Bytes.{within_ℤ};
ghost use Rattle.market.specs.CaseCheck.{most_resources, most_zones, CountsWithin};
ghost use Rattle.market.specs.Numbers.{u8, field_width, field_low, field_high, field_at, head_fields, resource_fields, case_fields, certificate_fields};
ghost use Rattle.wire.specs.Within.{Within};
ghost use Rattle.fields.specs.Layout.{field_of, fields_of, head_numbers, resource_numbers, certificate_head_numbers, entry_numbers};

use market::{Counts, Version};

// Unsigned or in two's complement, big-endian.
#[derive(Clone, Copy, Drop)]
pub enum Field {
    U8,
    U16,
    U32,
    I16,
    I32,
}

impl Field {
    pub fn width(self) -> usize
        ensures { result ≡ field_width (field_of self) }
    {
        match self {
            Field::U8 => 1,
            Field::U16 => 2,
            Field::U32 => 4,
            Field::I16 => 2,
            Field::I32 => 4,
        }
    }

    #[tactic(auto, unfolding(market::specs::Numbers::field_at))]
    pub fn number_at(self, b: &[u8], at: usize) -> i64
        requires { Within b.now at (field_width (field_of self)) }
        ensures { result ≡ field_at (field_of self) b.now at }
    {
        match self {
            Field::U8 => i64::from(wire::u8_at(b, at)),
            Field::U16 => i64::from(wire::u16_at(b, at)),
            Field::U32 => i64::from(wire::u32_at(b, at)),
            Field::I16 => wire::i16_at(b, at),
            Field::I32 => wire::i32_at(b, at),
        }
    }

    pub fn fits(self, v: i64) -> bool
        ensures { result ≡ within_ℤ (field_low (field_of self)) (field_high (field_of self)) v }
    {
        match self {
            Field::U8 => (0..=255).contains(&v),
            Field::U16 => (0..=65535).contains(&v),
            Field::U32 => (0..=4294967295).contains(&v),
            Field::I16 => (-32768..=32767).contains(&v),
            Field::I32 => (-2147483648..=2147483647).contains(&v),
        }
    }
}

// Of a zone in both files: one for each of its demand curves.
const ZONE_NUMBERS: usize = market::ZONED_CURVES;

// ---- the tables, in the order of the file
// A case's own figures, up to the market requirements and the steps of the curves, which are all u32.
const HEAD: [Field; 13] = [
    // resources, zones, flowgates
    Field::U8,
    Field::U8,
    Field::U8,
    // demand
    Field::U32,
    // multiplier and minutes: contingency, regulating, short-term
    Field::U16,
    Field::U16,
    Field::U16,
    Field::U16,
    Field::U16,
    Field::U16,
    // largest shares: regulating, contingency, short-term
    Field::U16,
    Field::U16,
    Field::U16,
];

const RESOURCE: [Field; 43] = [
    Field::U8, // kind
    Field::U8, // zone
    Field::U8, // breaker
    Field::U8, // status
    Field::U8, // minutes since trip
    Field::U8, // flags
    Field::I32, // estimated output
    Field::U32, // economic minimum
    Field::U32, // economic maximum
    Field::U32, // regulating minimum
    Field::U32, // regulating maximum
    Field::U32, // emergency minimum
    Field::U32, // emergency maximum
    Field::U32, // ramp up
    Field::U32, // ramp down
    Field::U32, // ramp rate
    Field::U32, // initial energy
    Field::U32, // off-line response limit
    Field::U32, // off-line short-term limit
    Field::U32, // self-schedule
    Field::U32, // price of regulating
    Field::U32, // price of contingency
    Field::U32, // price of off-line short-term
    // ten energy steps: width, price
    Field::U32,
    Field::I32,
    Field::U32,
    Field::I32,
    Field::U32,
    Field::I32,
    Field::U32,
    Field::I32,
    Field::U32,
    Field::I32,
    Field::U32,
    Field::I32,
    Field::U32,
    Field::I32,
    Field::U32,
    Field::I32,
    Field::U32,
    Field::I32,
    Field::U32,
    Field::I32,
];

// ---- how many numbers a part of a file has: a case's head, each resource of it, a certificate's head, what it says of each resource
#[tactic(auto, using(crate::proofs::Tables::head_long))]
fn head_numbers(version: Version) -> usize
    ensures { result ≡ head_numbers version }
{
    HEAD.len() + market::RESERVES + version.curves() * market::CURVE_STEPS * 2
}

#[tactic(auto, using(crate::proofs::Tables::resource_long))]
fn resource_numbers(version: Version) -> usize
    ensures { result ≡ resource_numbers version }
{
    match version {
        Version::First => RESOURCE.len(),
    }
}

#[tactic(auto, using(crate::proofs::Places::certificate_head_long))]
fn certificate_head_numbers(version: Version) -> usize
    ensures { result ≡ certificate_head_numbers version }
{
    4 + 2 * version.curves()
}

fn entry_numbers(version: Version) -> usize
    ensures { result ≡ entry_numbers version }
{
    version.services() + version.resource_rows()
}

// ---- the field of each of them
#[tactic(auto, using(crate::proofs::Tables::head_entry))]
fn head_field(version: Version, k: usize) -> Field
    requires { k < head_numbers version }
    ensures { field_of result ≡ get_or (head_fields version) k u8 }
{
    if k < HEAD.len() {
        return HEAD[k];
    }
    Field::U32
}

#[tactic(auto, using(crate::proofs::Tables::resource_long))]
fn resource_field(version: Version, k: usize) -> Field
    requires { k < resource_numbers version }
    ensures { field_of result ≡ get_or (resource_fields version) k u8 }
{
    match version {
        Version::First => RESOURCE[k],
    }
}

// ---- the k-th number's field, for any number of flowgates
#[tactic(auto, using(crate::proofs::Places::case_places, crate::proofs::Tables::resource_long))]
fn case_field(n: Counts, k: usize) -> Field
    requires { (n.resources ≤ most_resources) × (n.zones ≤ most_zones) }
    ensures { (f : ℕ) → k < length (case_fields n.version n.resources n.zones f) → field_of result ≡ get_or (case_fields n.version n.resources n.zones f) k u8 }
{
    let head_end = head_numbers(n.version);
    if k < head_end {
        return head_field(n.version, k);
    }
    let zones_end = head_end + ZONE_NUMBERS * n.zones;
    if k < zones_end {
        return Field::U32;
    }
    let each = resource_numbers(n.version);
    let resources_end = zones_end + n.resources * each;
    if k < resources_end {
        return resource_field(n.version, (k - zones_end) % each);
    }
    // a flowgate's limit, then its shift factors
    if (k - resources_end) % (n.resources + 1) == 0 {
        return Field::I32;
    }
    Field::I16
}

#[tactic(auto, using(crate::proofs::Places::certificate_places))]
fn certificate_field(n: Counts, k: usize) -> Field
    ensures { (r z f : ℕ) → k < length (certificate_fields n.version r z f) → field_of result ≡ get_or (certificate_fields n.version r z f) k u8 }
{
    // resources, zones, flowgates
    if k < 3 {
        return Field::U8;
    }
    // all later ones but the price of row 1, which stands between the cleared quantities and the prices of the reserve rows
    if k != 3 + n.version.curves() {
        return Field::U32;
    }
    Field::I32
}

// A trait with a type for each file says more and no plainer: each promise, two bodies of it, and both files' grounds besides. So it is
// with a field's width, whose methods above match five variants.
#[derive(Clone, Copy, Drop)]
pub enum File {
    Case,
    Certificate,
}

impl File {
    pub fn field_at(self, n: Counts, k: usize) -> Field
        requires { (n.resources ≤ most_resources) × (n.zones ≤ most_zones) }
        ensures { (f : ℕ) → k < length (fields_of self n.version n.resources n.zones f) → field_of result ≡ get_or (fields_of self n.version n.resources n.zones f) k u8 }
    {
        match self {
            File::Case => case_field(n, k),
            File::Certificate => certificate_field(n, k),
        }
    }

    // How many numbers a file has. That the counts are in their ranges stands in `requires`, and in no type: `Counts` holds what any three
    // bytes say, before 3 is tested of them, and a second type would be opened again by each reader, which has a count in each field.
    #[tactic(auto, using(crate::proofs::Tables::resource_long, crate::proofs::Places::case_long, market::proofs::FileSizes::certificate_count))]
    pub fn count(self, n: Counts) -> usize
        requires { CountsWithin n.resources n.zones n.flowgates }
        ensures { result ≡ length (fields_of self n.version n.resources n.zones n.flowgates) }
    {
        match self {
            File::Case => {
                head_numbers(n.version)
                    + ZONE_NUMBERS * n.zones
                    + n.resources * resource_numbers(n.version)
                    + n.flowgates * (n.resources + 1)
            }
            File::Certificate => {
                certificate_head_numbers(n.version)
                    + ZONE_NUMBERS * n.zones
                    + n.flowgates
                    + n.resources * entry_numbers(n.version)
            }
        }
    }
}
