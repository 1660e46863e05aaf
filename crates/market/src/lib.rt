// The types of a dispatch interval: units, status bits and flags, records of the case, refusals and answers.
// The definitions of document 01 stand in specs/, what is proved of them in proofs/.
#![tactic(auto)]

ghost use Rattle.std.specs.Prelude.{◌≡◌, refl, ℤ, pos};
ghost use Rattle.market.specs.Bits.{has, status_of, status_bits};
ghost use Rattle.market.specs.Kinds.{kind_of, breaker_of};
ghost use Rattle.market.specs.Case.{curve_number};
ghost use Rattle.market.specs.Availability.{on_line_figure, is_on_line};
ghost use Rattle.market.specs.CaseFile.{flowgate_place, case_size, pair_place, share_order};
ghost use Rattle.market.specs.CaseCheck.{CountsWithin};
ghost use Rattle.market.specs.Certificate.{amounts_place, certificate_size};
ghost use Rattle.market.specs.Refusals.{number_of, place_of, answer_of, result_of, count_of};

mod version;

pub use version::{UnknownVersion, Version};

// ---- how many there are of each kind in every version; `Version` has what differs
// Demand curves that have a row and a requirement in each zone, the steps of a curve, reserves, energy steps of a resource.
pub const ZONED_CURVES: usize = 4;

pub const CURVE_STEPS: usize = 4;

pub const RESERVES: usize = 3;

pub const ENERGY_STEPS: usize = 10;

// A zone's reserve rows.
pub const ZONE_ROWS: usize = ZONED_CURVES;

// Prices that the call for prices writes of a zone: regulating, spinning, supplemental, short-term.
pub const ZONE_PRICES: usize = 4;

// ---- limits, and the sizes of the two files' parts in bytes that are the same in every version
pub const MOST_RESOURCES: usize = 64;

pub const MOST_ZONES: usize = 8;

pub const MOST_FLOWGATES: usize = 12;

// Of a case. One that is shorter than the least is refused by 1.
pub const LEAST_CASE_SIZE: usize = 170;

pub const ZONE_SIZE: usize = 4 * ZONED_CURVES;

pub const FACTOR_SIZE: usize = 2;

// An offer step or a demand curve step: its width, then its price.
pub const STEP_SIZE: usize = 8;

pub const CURVE_SIZE: usize = CURVE_STEPS * STEP_SIZE;

// The largest case of any version.
pub const LARGEST_CASE_SIZE: usize = LEAST_CASE_SIZE
    + MOST_ZONES * ZONE_SIZE
    + MOST_RESOURCES * 154
    + MOST_FLOWGATES * (4 + MOST_RESOURCES * FACTOR_SIZE);

// Of a certificate. One that is shorter than the least is refused by 8.
pub const LEAST_CERTIFICATE_SIZE: usize = 44;

pub const ZONE_PRICES_SIZE: usize = 4 * ZONED_CURVES;

pub const FLOWGATE_PRICE_SIZE: usize = 4;

// ---- where a part stands, after the others

// Flowgate f of a case, after its zones and resources.
pub fn flowgate_place(version: Version, resources: usize, zones: usize, f: usize) -> usize
    requires { CountsWithin resources zones f }
    ensures { result ≡ flowgate_place version resources zones f }
{
    version.head_size()
        + zones * ZONE_SIZE
        + resources * version.resource_size()
        + f * (version.flowgate_head_size() + resources * FACTOR_SIZE)
}

// What a certificate says of resource i, after its zones and flowgates.
pub fn amounts_place(version: Version, zones: usize, flowgates: usize, i: usize) -> usize
    requires { CountsWithin i zones flowgates }
    ensures { result ≡ amounts_place version zones flowgates i }
{
    version.certificate_head_size()
        + zones * ZONE_PRICES_SIZE
        + flowgates * FLOWGATE_PRICE_SIZE
        + i * version.entry_size()
}

// ---- how many bytes a file of these counts has

pub fn case_size(n: Counts) -> usize
    requires { CountsWithin n.resources n.zones n.flowgates }
    ensures { result ≡ case_size n.version n.resources n.zones n.flowgates }
{
    flowgate_place(n.version, n.resources, n.zones, n.flowgates)
}

pub fn certificate_size(n: Counts) -> usize
    requires { CountsWithin n.resources n.zones n.flowgates }
    ensures { result ≡ certificate_size n.version n.resources n.zones n.flowgates }
{
    amounts_place(n.version, n.zones, n.flowgates, n.resources)
}

// ---- units
// Power, in kW.
#[derive(Clone, Copy, Drop, PartialEq, Eq)]
pub struct Kw(pub i64);

// Ramps, in kW a minute.
#[derive(Clone, Copy, Drop)]
pub struct KwPerMinute(pub i64);

#[derive(Clone, Copy, Drop)]
pub struct Minutes(pub u32);

// Multipliers and shares, in thousandths.
#[derive(Clone, Copy, Drop)]
pub struct Thousandths(pub u32);

impl Thousandths {
    pub const ONE: Thousandths = Thousandths(1000);
}

// Offer, curve and flowgate prices, in cents per MWh.
#[derive(Clone, Copy, Drop)]
pub struct Cents(pub i64);

// All other prices, in thousandths of a cent per MWh.
#[derive(Clone, Copy, Drop)]
pub struct Millicents(pub i64);

// The flow over a flowgate, and its limit beside it: in thousandths of a kW.
#[derive(Clone, Copy, Drop)]
pub struct Watts(pub i64);

// How much of a resource's energy flows over a flowgate, in thousandths.
#[derive(Clone, Copy, Drop)]
pub struct ShiftFactor(pub i64);

// Cost, bound and charges. 'Grain' is document 01's own term: one thousandth of a cent per MWh times one kW.
#[derive(Clone, Copy, Drop)]
pub struct Grains(pub i64);

// What has a unit: a figure is a number, and each number is a figure.
pub trait Unit: Copy {
    ghost number: { Self → ℤ };

    ghost of: { ℤ → Self };

    fn of(figure: i64) -> Self
        ensures { result ≡ of figure };

    fn number(self) -> i64
        ensures { result ≡ number self };

    ghost number_of: { (v : ℤ) → number (of v) ≡ v };
}

// Each written out: `rt ci` takes no `impl` that a macro of the repository writes.
impl Unit for Kw {
    ghost number = { λ a. a.0 };

    ghost of = { λ v. record { 0 = v } };

    ghost number_of = { λ v. refl };

    fn of(figure: i64) -> Kw {
        Kw(figure)
    }

    fn number(self) -> i64 {
        self.0
    }
}

impl Unit for KwPerMinute {
    ghost number = { λ a. a.0 };

    ghost of = { λ v. record { 0 = v } };

    ghost number_of = { λ v. refl };

    fn of(figure: i64) -> KwPerMinute {
        KwPerMinute(figure)
    }

    fn number(self) -> i64 {
        self.0
    }
}

impl Unit for Cents {
    ghost number = { λ a. a.0 };

    ghost of = { λ v. record { 0 = v } };

    ghost number_of = { λ v. refl };

    fn of(figure: i64) -> Cents {
        Cents(figure)
    }

    fn number(self) -> i64 {
        self.0
    }
}

impl Unit for Millicents {
    ghost number = { λ a. a.0 };

    ghost of = { λ v. record { 0 = v } };

    ghost number_of = { λ v. refl };

    fn of(figure: i64) -> Millicents {
        Millicents(figure)
    }

    fn number(self) -> i64 {
        self.0
    }
}

impl Unit for Watts {
    ghost number = { λ a. a.0 };

    ghost of = { λ v. record { 0 = v } };

    ghost number_of = { λ v. refl };

    fn of(figure: i64) -> Watts {
        Watts(figure)
    }

    fn number(self) -> i64 {
        self.0
    }
}

impl Unit for Grains {
    ghost number = { λ a. a.0 };

    ghost of = { λ v. record { 0 = v } };

    ghost number_of = { λ v. refl };

    fn of(figure: i64) -> Grains {
        Grains(figure)
    }

    fn number(self) -> i64 {
        self.0
    }
}

// Whether a bit is set in some; none is set in no bit.
fn is_set(bit: u8, bits: u8) -> bool
    ensures { result ≡ has bit bits }
{
    bit != 0 && bits / bit % 2 == 1
}

// A resource's status bits; none above 8 is set. Only this crate makes one of a byte.
#[derive(Clone, Copy, Drop)]
pub struct Status(u8);

// A byte that has a bit above 8.
#[derive(Clone, Copy, Debug, PartialEq, Eq, Hash)]
pub struct UnknownStatus(pub u8);

impl TryFrom<u8> for Status {
    type Error = UnknownStatus;

    ghost try_from_gives = { λ bits r. r ≡ status_of bits };

    fn try_from(bits: u8) -> Result<Status, UnknownStatus> {
        if bits > Status::MOST.0 {
            return Err(UnknownStatus(bits));
        }
        Ok(Status(bits))
    }
}

impl Status {
    pub const COMMITTED: Status = Status(1);

    pub const AVAILABLE: Status = Status(2);

    pub const ACTIVE_SCHEDULE: Status = Status(4);

    pub const ON_LINE_SUPPLEMENTAL: Status = Status(8);

    pub const MOST: Status = Status(15);

    // The status bits of any byte; of a byte in range, all that it has. It takes bits away and is no conversion.
    pub fn masked(byte: u8) -> Status
        ensures { result.0 ≡ status_bits byte }
    {
        Status(byte % (Status::MOST.0 + 1))
    }

    // Whether the bit is set.
    pub fn has(self, bit: Status) -> bool
        ensures { result ≡ has bit.0 self.0 }
    {
        is_set(bit.0, self.0)
    }
}

// A resource's flags; any byte.
#[derive(Clone, Copy, Drop)]
pub struct Flags(u8);

impl Flags {
    pub const REGULATING: Flags = Flags(1);

    pub const SPINNING: Flags = Flags(2);

    pub const OFF_LINE_SUPPLEMENTAL: Flags = Flags(4);

    pub const OFF_LINE_SHORT_TERM: Flags = Flags(8);

    pub const EMERGENCY_MAXIMUM: Flags = Flags(16);

    pub const SELF_SCHEDULED: Flags = Flags(32);

    pub const EMERGENCY_MINIMUM: Flags = Flags(64);

    pub const ON_LINE_SHORT_TERM: Flags = Flags(128);

    // Whether the flag is set.
    pub fn has(self, flag: Flags) -> bool
        ensures { result ≡ has flag.0 self.0 }
    {
        is_set(flag.0, self.0)
    }
}

impl From<u8> for Flags {
    ghost from_gives = { λ bits r. r.0 ≡ bits };

    fn from(bits: u8) -> Flags {
        Flags(bits)
    }
}

// Whether a resource is on-line, off-line or tripped (01, 'Before the rows'; 02, request 2).
#[derive(Clone, Copy, Debug, PartialEq, Eq, Hash)]
pub enum Availability {
    OnLine,
    OffLine,
    Tripped,
}

impl Availability {
    // On-line, and neither off-line nor tripped.
    pub fn on_line(self) -> bool
        ensures { result ≡ is_on_line self }
    {
        self == Availability::OnLine
    }

    // What the program prints for on-line.
    pub fn printed(self) -> i64
        ensures { result ≡ pos (on_line_figure self) }
    {
        i64::from(self.on_line())
    }
}

// What a resource is, by its record's byte (01, 'The case file').
#[derive(Clone, Copy, Debug, PartialEq, Eq, Hash)]
pub enum Kind {
    Conventional,
    Intermittent,
    External,
    Unknown(u8),
}

impl From<u8> for Kind {
    ghost from_gives = { λ byte r. r ≡ kind_of byte };

    fn from(byte: u8) -> Kind {
        match byte {
            1 => Kind::Conventional,
            2 => Kind::Intermittent,
            3 => Kind::External,
            _ => Kind::Unknown(byte),
        }
    }
}

// A resource's breaker, by its record's byte (01, 'The case file').
#[derive(Clone, Copy, Debug, PartialEq, Eq, Hash)]
pub enum Breaker {
    Open,
    Closed,
    Unknown(u8),
}

impl From<u8> for Breaker {
    ghost from_gives = { λ byte r. r ≡ breaker_of byte };

    fn from(byte: u8) -> Breaker {
        match byte {
            0 => Breaker::Open,
            1 => Breaker::Closed,
            _ => Breaker::Unknown(byte),
        }
    }
}

// The four demand curves, each with its reserve rows, in the file's order (01, 'What is carried').
#[derive(Clone, Copy, Debug, PartialEq, Eq, Hash)]
pub enum Curve {
    Operating,
    RegulatingPlusSpinning,
    Regulating,
    ShortTerm,
}

impl Curve {
    pub const ALL: [Curve; ZONED_CURVES] = [
        Curve::Operating,
        Curve::RegulatingPlusSpinning,
        Curve::Regulating,
        Curve::ShortTerm,
    ];

    // Its place among the four, from 0 on.
    pub fn number(self) -> usize
        ensures { result ≡ curve_number self }
    {
        self as usize
    }
}

// The three reserves that have a multiplier, minutes, a largest share and a market requirement (01, 'The case file').
#[derive(Clone, Copy, Debug, PartialEq, Eq, Hash)]
pub enum Reserve {
    Regulating,
    Contingency,
    ShortTerm,
}

impl Reserve {
    pub const ALL: [Reserve; RESERVES] = [
        Reserve::Regulating,
        Reserve::Contingency,
        Reserve::ShortTerm,
    ];

    // Where its multiplier and, two bytes on, its minutes stand in the head of a case.
    pub fn pair_place(self) -> usize
        ensures { result ≡ pair_place self }
    {
        match self {
            Reserve::Contingency => 12,
            Reserve::Regulating => 16,
            Reserve::ShortTerm => 20,
        }
    }

    // Its place among the shares and among the requirements, from 0 on.
    pub fn share_order(self) -> usize
        ensures { result ≡ share_order self }
    {
        usize::from(self as u8)
    }
}

// What a file says of itself: its version, and how many resources, zones and flowgates it has.
#[derive(Clone, Copy, Drop, PartialEq, Eq)]
pub struct Counts {
    pub version: Version,
    pub resources: usize,
    pub zones: usize,
    pub flowgates: usize,
}

// An offer step or a demand curve step.
#[derive(Clone, Copy, Drop)]
pub struct Step {
    pub width: Kw,
    pub price: Cents,
}

pub type OfferSteps = [Step; ENERGY_STEPS];

pub type CurveSteps = [Step; CURVE_STEPS];

// A resource's record, read by value. `trip` is the time since the last trip, 255 for none: no time, but whoever reads it asks only
// whether it is 15 or less, so that a type with no time in it would be one case more and no plainer.
#[derive(Clone, Copy, Drop)]
pub struct State {
    pub kind: Kind,
    pub zone: u8,
    pub breaker: Breaker,
    pub trip: Minutes,
    pub flags: Flags,
    pub output: Kw,
    pub status: Status,
}

#[derive(Clone, Copy, Drop)]
pub struct OutputLimits {
    pub economic_min: Kw,
    pub economic_max: Kw,
    pub regulating_min: Kw,
    pub regulating_max: Kw,
    pub emergency_min: Kw,
    pub emergency_max: Kw,
}

#[derive(Clone, Copy, Drop)]
pub struct Ramps {
    pub up: KwPerMinute,
    pub down: KwPerMinute,
    pub rate: KwPerMinute,
}

#[derive(Clone, Copy, Drop)]
pub struct OtherPowers {
    pub initial: Kw,
    pub off_line_response: Kw,
    pub off_line_short_term: Kw,
    pub self_schedule: Kw,
}

#[derive(Clone, Copy, Drop)]
pub struct ReserveOffers {
    pub regulating: Cents,
    pub contingency: Cents,
    pub off_line_short_term: Cents,
}

// All of the record but its energy steps: they are more than half of it, and few functions use them.
#[derive(Clone, Copy, Drop)]
pub struct Resource {
    pub state: State,
    pub limits: OutputLimits,
    pub ramps: Ramps,
    pub other_powers: OtherPowers,
    pub offers: ReserveOffers,
}

// What a case says of one reserve: the multiplier, minutes, the largest share, the market requirement.
#[derive(Clone, Copy, Drop)]
pub struct ReserveTerms {
    pub multiplier: Thousandths,
    pub minutes: Minutes,
    pub share: Thousandths,
    pub requirement: Kw,
}

// A figure, or more than one, for each of the three reserves.
#[derive(Clone, Copy, Drop)]
pub struct PerReserve<T> {
    pub regulating: T,
    pub contingency: T,
    pub short_term: T,
}

// What a case says of all three reserves.
pub type Terms = PerReserve<ReserveTerms>;

// A figure for each service of a resource.
#[derive(Clone, Copy, Drop)]
pub struct PerService<T> {
    pub energy: T,
    pub regulation: T,
    pub contingency: T,
    pub on_line_short_term: T,
    pub off_line_short_term: T,
}

// What a certificate gives a resource.
pub type Amounts = PerService<Kw>;

// The prices of a resource's five rows.
#[derive(Clone, Copy, Drop)]
pub struct LimitPrices {
    pub max_with_reserve: Millicents,
    pub max_with_short_term: Millicents,
    pub minimum: Millicents,
    pub high: Millicents,
    pub low: Millicents,
}

// A figure for each demand curve.
#[derive(Clone, Copy, Drop)]
pub struct PerCurve<T> {
    pub operating: T,
    pub regulating_plus_spinning: T,
    pub regulating: T,
    pub short_term: T,
}

// Cleared quantities, a zone's requirements, or what reserve rows sum to.
pub type CurveAmounts = PerCurve<Kw>;

// The prices of the four reserve rows, market-wide or of a zone.
pub type ReservePrices = PerCurve<Millicents>;

// The grounds of refusal, in the order of their numbers; 13 with the quantity's place, 14 with the row's number.
#[derive(Clone, Copy, Debug, PartialEq, Eq, Hash)]
pub enum Refusal {
    CaseLength,
    CaseVersion,
    Counts,
    CaseSize,
    FieldRange,
    StepRule,
    LimitPair,
    CertificateLength,
    CertificateVersion,
    CountsDiffer,
    CertificateSize,
    PriceRange,
    AboveBound(u32),
    RowBroken(u32),
    BufferShort,
    NumberList,
    InputLength,
}

impl Refusal {
    // The number that C hosts receive. A cast to a number is not to be had: two of the variants hold a place.
    pub fn number(self) -> u32
        ensures { result ≡ number_of self }
    {
        match self {
            Refusal::CaseLength => 1,
            Refusal::CaseVersion => 2,
            Refusal::Counts => 3,
            Refusal::CaseSize => 4,
            Refusal::FieldRange => 5,
            Refusal::StepRule => 6,
            Refusal::LimitPair => 7,
            Refusal::CertificateLength => 8,
            Refusal::CertificateVersion => 9,
            Refusal::CountsDiffer => 10,
            Refusal::CertificateSize => 11,
            Refusal::PriceRange => 12,
            Refusal::AboveBound(_) => 13,
            Refusal::RowBroken(_) => 14,
            Refusal::BufferShort => 15,
            Refusal::NumberList => 16,
            Refusal::InputLength => 17,
        }
    }

    pub fn place(self) -> u32
        ensures { result ≡ place_of self }
    {
        match self {
            Refusal::AboveBound(place) => place,
            Refusal::RowBroken(row) => row,
            _ => 0,
        }
    }
}

// What a certificate check returns on success.
#[derive(Clone, Copy, Drop)]
pub struct Valuation {
    pub cost: Grains,
    pub bound: Grains,
    pub gap: Grains,
}

// The answer of the certificate check: cost, bound and gap, or the first ground that holds.
pub type Outcome = Result<Valuation, Refusal>;

// The answers as C hosts receive them. A refused one has every other field 0 but the place.
#[repr(C)]
#[derive(Clone, Copy, Drop)]
pub struct Answer {
    pub refusal: u32,
    pub place: u32,
}

#[repr(C)]
#[derive(Clone, Copy, Drop)]
pub struct CheckResult {
    pub refusal: u32,
    pub place: u32,
    pub cost: i64,
    pub bound: i64,
    pub gap: i64,
}

#[repr(C)]
#[derive(Clone, Copy, Drop)]
pub struct Count {
    pub refusal: u32,
    pub count: u32,
}

impl From<Result<(), Refusal>> for Answer {
    ghost from_gives = { λ answer r. r ≡ answer_of answer };

    fn from(answer: Result<(), Refusal>) -> Answer {
        match answer {
            Ok(()) => Answer {
                refusal: 0,
                place: 0,
            },
            Err(why) => Answer {
                refusal: why.number(),
                place: why.place(),
            },
        }
    }
}

impl From<Outcome> for CheckResult {
    ghost from_gives = { λ answer r. r ≡ result_of answer };

    fn from(answer: Outcome) -> CheckResult {
        match answer {
            Ok(v) => CheckResult {
                refusal: 0,
                place: 0,
                cost: v.cost.0,
                bound: v.bound.0,
                gap: v.gap.0,
            },
            Err(why) => CheckResult {
                refusal: why.number(),
                place: why.place(),
                cost: 0,
                bound: 0,
                gap: 0,
            },
        }
    }
}

impl From<Result<u32, Refusal>> for Count {
    ghost from_gives = { λ answer r. r ≡ count_of answer };

    fn from(answer: Result<u32, Refusal>) -> Count {
        match answer {
            Ok(n) => Count {
                refusal: 0,
                count: n,
            },
            Err(why) => Count {
                refusal: why.number(),
                count: 0,
            },
        }
    }
}
