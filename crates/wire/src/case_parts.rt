// Three parts of a case whose bytes are there: its head, one resource, one flowgate. What is read of them asks nothing more of the
// bytes. Each holds the whole slice, and a place where it does not begin with it: the definitions speak of places in a case's bytes, so
// that of a slice of the part alone each read would need the law that it is the case's number so much further on.
ghost use Rattle.std.specs.Prelude.{◌≡◌, ◌+◌, ◌*◌, ◌<◌, ◌≤◌, pos};
ghost use Rattle.market.specs.Bytes.{u8_at, u32_at, i16_at, i32_at, signed};
ghost use Rattle.market.specs.Case.{curve_steps, energy_steps};
ghost use Rattle.market.specs.Version.{version_in};
ghost use Rattle.market.specs.CaseFile.{behind_flags, behind_minimum, head_size, resource_size, flowgate_size, flowgate_head_size, factor_size};
ghost use Rattle.wire.specs.Within.{Within};

use market::{CURVE_SIZE, Curve, FACTOR_SIZE, Reserve, STEP_SIZE, Unit};

// A step as its file has it: the width, and the price's number of 32 bits.
#[derive(Clone, Copy)]
pub struct FileStep {
    pub width: u32,
    pub price: u32,
}

// What a case says of one reserve, as its file has it.
#[derive(Clone, Copy)]
pub struct FileTerms {
    pub multiplier: u32,
    pub minutes: u32,
    pub share: u32,
    pub requirement: u32,
}

// Length, version, counts, demand, reserve terms and demand curves.
#[derive(Clone, Copy)]
pub struct CaseHead<'a> {
    pub bytes: &'a [u8],
    pub ghost within: { Within bytes.now 0 (head_size (version_in bytes.now)) },
}

impl<'a> CaseHead<'a> {
    ghost use Rattle.wire.specs.CaseParts.{head_of};

    pub fn new(bytes: &'a [u8]) -> Self
        requires { Within bytes.now 0 (head_size (version_in bytes.now)) }
        ensures { result.bytes ≡ bytes.entry }
    {
        CaseHead { bytes }
    }

    #[tactic(auto, using(crate::proofs::HeadPlaces::pair_in_head, crate::proofs::HeadPlaces::order_of_three), unfolding(market::specs::CaseFile::case_as))]
    pub fn terms(&self, reserve: Reserve) -> FileTerms
        ensures multiplier { result.multiplier ≡ (head_of self.now).multiplier reserve }
        ensures minutes { result.minutes ≡ (head_of self.now).minutes reserve }
        ensures share { result.share ≡ (head_of self.now).share reserve }
        ensures requirement { result.requirement ≡ (head_of self.now).requirement reserve }
    {
        let pair = reserve.pair_place();
        let n = reserve.share_order();
        let requirements = super::version_at(self.bytes).requirements_place();
        FileTerms {
            multiplier: super::u16_at(self.bytes, pair),
            minutes: super::u16_at(self.bytes, pair + 2),
            share: super::u16_at(self.bytes, 24 + n * 2),
            requirement: super::u32_at(self.bytes, requirements + n * 4),
        }
    }

    // Step j of a demand curve, 0 where the version has none.
    #[tactic(auto, using(market::proofs::CurveNumbers::number_within), unfolding(market::specs::CaseFile::case_as))]
    pub fn step(&self, curve: Curve, j: usize) -> FileStep
        requires { j < curve_steps }
        ensures width { result.width ≡ (head_of self.now).curve_width curve j }
        ensures price { result.price ≡ (head_of self.now).curve_price curve j }
    {
        let version = super::version_at(self.bytes);
        if !version.has_curve(curve) {
            return FileStep { width: 0, price: 0 };
        }
        let at = version.curves_place() + curve.number() * CURVE_SIZE + j * STEP_SIZE;
        FileStep {
            width: super::u32_at(self.bytes, at),
            price: super::u32_at(self.bytes, at + 4),
        }
    }
}

// The record of a resource that begins at `at`.
#[derive(Clone, Copy)]
pub struct ResourceBytes<'a> {
    pub bytes: &'a [u8],
    pub at: usize,
    pub ghost within: { Within bytes.now at (resource_size (version_in bytes.now)) },
}

impl<'a> ResourceBytes<'a> {
    ghost use Rattle.wire.specs.CaseParts.{figures_of};

    pub fn new(bytes: &'a [u8], at: usize) -> Self
        requires { Within bytes.now at (resource_size (version_in bytes.now)) }
        ensures bytes { result.bytes ≡ bytes.entry }
        ensures at { result.at ≡ at }
    {
        ResourceBytes { bytes, at }
    }

    // Where in the record a field stands that is so far from its beginning without what a version may have before it: a byte after the
    // flags, or that and the emergency minimum.
    pub fn behind_flags(&self, offset: usize) -> usize
        requires { offset ≤ 154 }
        ensures { result ≡ behind_flags (version_in self.now.bytes.now) offset }
    {
        super::version_at(self.bytes).behind_flags(offset)
    }

    pub fn behind_minimum(&self, offset: usize) -> usize
        requires { offset ≤ 154 }
        ensures { result ≡ behind_minimum (version_in self.now.bytes.now) offset }
    {
        super::version_at(self.bytes).behind_minimum(offset)
    }

    // The byte at a place of the record; in what follows, the number there.
    pub fn u8(&self, place: usize) -> u8
        requires { place + 1 ≤ resource_size (version_in self.now.bytes.now) }
        ensures { result ≡ u8_at self.now.bytes.now (self.now.at + place) }
    {
        super::u8_at(self.bytes, self.at + place)
    }

    pub fn u32(&self, place: usize) -> u32
        requires { place + 4 ≤ resource_size (version_in self.now.bytes.now) }
        ensures { result ≡ u32_at self.now.bytes.now (self.now.at + place) }
    {
        super::u32_at(self.bytes, self.at + place)
    }

    pub fn i32(&self, place: usize) -> i64
        requires { place + 4 ≤ resource_size (version_in self.now.bytes.now) }
        ensures { result ≡ i32_at self.now.bytes.now (self.now.at + place) }
    {
        super::i32_at(self.bytes, self.at + place)
    }

    pub fn figure<U: Unit>(&self, place: usize) -> U
        requires { place + 4 ≤ resource_size (version_in self.now.bytes.now) }
        ensures { result ≡ U.of (pos (u32_at self.now.bytes.now (self.now.at + place))) }
    {
        super::figure_at(self.bytes, self.at + place)
    }

    pub fn signed_figure<U: Unit>(&self, place: usize) -> U
        requires { place + 4 ≤ resource_size (version_in self.now.bytes.now) }
        ensures { result ≡ U.of (i32_at self.now.bytes.now (self.now.at + place)) }
    {
        super::signed_figure_at(self.bytes, self.at + place)
    }

    // Its emergency minimum, 0 where a version has none.
    #[tactic(auto, unfolding(market::specs::CaseFile::resource_at))]
    pub fn emergency_min(&self) -> u32
        ensures { result ≡ (figures_of self.now).emergency_min }
    {
        if !super::version_at(self.bytes).releasing() {
            return 0;
        }
        self.u32(self.behind_flags(26))
    }

    // Step j of its energy.
    #[tactic(auto, unfolding(market::specs::CaseFile::resource_at))]
    pub fn step(&self, j: usize) -> FileStep
        requires { j < energy_steps }
        ensures width { result.width ≡ (figures_of self.now).step_width j }
        ensures price { signed 2147483648 result.price ≡ (figures_of self.now).step_price j }
        ensures price_number { result.price ≡ u32_at self.now.bytes.now (self.now.at + behind_minimum (version_in self.now.bytes.now) 74 + j * 8) }
        ensures number { (result.width < 4294967296) × (result.price < 4294967296) }
    {
        let at = self.behind_minimum(70) + j * STEP_SIZE;
        FileStep {
            width: self.u32(at),
            price: self.u32(at + 4),
        }
    }
}

// The flowgate that begins at `at`, of a case that counts so many resources.
#[derive(Clone, Copy)]
pub struct FlowgateBytes<'a> {
    pub bytes: &'a [u8],
    pub at: usize,
    pub resources: usize,
    pub ghost within: { Within bytes.now at (flowgate_size (version_in bytes.now) resources) },
}

impl<'a> FlowgateBytes<'a> {
    pub fn new(bytes: &'a [u8], at: usize, resources: usize) -> Self
        requires { Within bytes.now at (flowgate_size (version_in bytes.now) resources) }
        ensures bytes { result.bytes ≡ bytes.entry }
        ensures at { result.at ≡ at }
        ensures resources { result.resources ≡ resources }
    {
        FlowgateBytes {
            bytes,
            at,
            resources,
        }
    }

    pub fn limit(&self) -> i64
        ensures { result ≡ i32_at self.now.bytes.now self.now.at }
    {
        super::i32_at(self.bytes, self.at)
    }

    // The shift factor of resource i.
    pub fn factor(&self, i: usize) -> i64
        requires { i < self.now.resources }
        ensures { result ≡ i16_at self.now.bytes.now (self.now.at + flowgate_head_size (version_in self.now.bytes.now) + i * factor_size) }
    {
        let factors = self.at + super::version_at(self.bytes).flowgate_head_size();
        super::i16_at(self.bytes, factors + i * FACTOR_SIZE)
    }
}
