// The versions of the two files, what each has, and what follows from that: how many there are of each kind, the sizes of the files' parts
// and the places in them.
ghost use Rattle.std.specs.Prelude.{◌≡◌, ◌+◌, ◌≤◌, length};
ghost use Rattle.market.specs.Version.{known_version, version_of, ramping, storing, releasing};
ghost use Rattle.market.specs.Case.{has_curve, curves};
ghost use Rattle.market.specs.CaseFile.{requirements_place, curves_place, head_size, behind_flags, behind_minimum, resource_size, flowgate_head_size};
ghost use Rattle.market.specs.UpperBounds.{services};
ghost use Rattle.market.specs.Rows.{limits, system_row_count, resource_row_count};
ghost use Rattle.market.specs.Cost.{resource_priced_count, curve_priced_count};
ghost use Rattle.market.specs.Certificate.{balance_price_place, market_prices_place, certificate_head_size, entry_size};

use super::{CURVE_SIZE, CURVE_STEPS, Curve, ENERGY_STEPS, RESERVES, ZONED_CURVES};

// Version 1 is document 01's. A file's fifth byte is its version.
#[derive(Clone, Copy, Debug, PartialEq, Eq, Hash)]
pub enum Version {
    First,
}

// A byte that is no version's.
#[derive(Clone, Copy, Debug, PartialEq, Eq, Hash)]
pub struct UnknownVersion(pub u8);

impl TryFrom<u8> for Version {
    type Error = UnknownVersion;

    ghost try_from_gives = { λ byte r. r ≡ known_version byte };

    fn try_from(byte: u8) -> Result<Version, UnknownVersion> {
        match byte {
            1 => Ok(Version::First),
            _ => Err(UnknownVersion(byte)),
        }
    }
}

// ---- what a version has, beside what each has
impl Version {
    // Of a file's fifth byte; one that is no version's is read as the nearest.
    #[tactic(auto, unfolding(crate::specs::Version::version_of))]
    pub fn nearest(byte: u8) -> Version
        ensures { result ≡ version_of byte }
    {
        Version::try_from(byte).unwrap_or(Version::First)
    }

    // Up and down ramp capability.
    pub fn ramping(self) -> bool
        ensures { result ≡ ramping self }
    {
        match self {
            Version::First => false,
        }
    }

    // The demand curve.
    pub fn has_curve(self, curve: Curve) -> bool
        ensures { result ≡ has_curve self curve }
    {
        match curve {
            Curve::Operating => true,
            Curve::RegulatingPlusSpinning => true,
            Curve::Regulating => true,
            Curve::ShortTerm => true,
        }
    }

    // Battery plants.
    pub fn storing(self) -> bool
        ensures { result ≡ storing self }
    {
        match self {
            Version::First => false,
        }
    }

    // A minimum that can be released in an emergency.
    pub fn releasing(self) -> bool
        ensures { result ≡ releasing self }
    {
        match self {
            Version::First => true,
        }
    }
}

// ---- how many
impl Version {
    // Demand curves.
    pub fn curves(self) -> usize
        ensures { result ≡ length (curves self) }
    {
        ZONED_CURVES
    }

    // Services of a resource.
    pub fn services(self) -> usize
        ensures { result ≡ length (services self) }
    {
        5 + 2 * usize::from(self.ramping()) + usize::from(self.storing())
    }

    // Row 1 with the market's reserve rows.
    pub fn system_rows(self) -> usize
        ensures { result ≡ system_row_count self }
    {
        1 + self.curves()
    }

    // A resource's own rows.
    pub fn resource_rows(self) -> usize
        ensures { result ≡ resource_row_count self }
    {
        5
    }

    // What is priced of a resource: its steps, and its services but energy.
    pub fn resource_priced(self) -> usize
        ensures { result ≡ resource_priced_count self }
    {
        ENERGY_STEPS + self.services() - 1
    }

    // The steps of the curves.
    pub fn curve_priced(self) -> usize
        ensures { result ≡ curve_priced_count self }
    {
        self.curves() * CURVE_STEPS
    }
}

// ---- a case: sizes of its parts, and places in them
impl Version {
    // Where the market requirements stand.
    pub fn requirements_place(self) -> usize
        ensures { result ≡ requirements_place self }
    {
        30
    }

    // And the demand curves.
    pub fn curves_place(self) -> usize
        ensures { result ≡ curves_place self }
    {
        self.requirements_place() + 4 * RESERVES
    }

    // Length, version, counts and the market's figures.
    pub fn head_size(self) -> usize
        ensures { result ≡ head_size self }
    {
        self.curves_place() + self.curves() * CURVE_SIZE
    }

    // Inside a resource, the place of a field so far from the beginning without what may stand before it: a byte after the flags.
    pub fn behind_flags(self, offset: usize) -> usize
        requires { offset ≤ 154 }
        ensures { result ≡ behind_flags self offset }
    {
        usize::from(self.ramping()) + offset
    }

    // And the emergency minimum.
    pub fn behind_minimum(self, offset: usize) -> usize
        requires { offset ≤ 154 }
        ensures { result ≡ behind_minimum self offset }
    {
        usize::from(self.ramping()) + 4 * usize::from(self.releasing()) + offset
    }

    pub fn resource_size(self) -> usize
        ensures { result ≡ resource_size self }
    {
        self.behind_minimum(150)
    }

    // What of a flowgate stands before its factors.
    pub fn flowgate_head_size(self) -> usize
        ensures { result ≡ flowgate_head_size self }
    {
        4
    }
}

// ---- a certificate: sizes of its parts, and places in them
impl Version {
    // After the cleared quantities.
    pub fn balance_price_place(self) -> usize
        ensures { result ≡ balance_price_place self }
    {
        8 + 4 * self.curves()
    }

    pub fn market_prices_place(self) -> usize
        ensures { result ≡ market_prices_place self }
    {
        self.balance_price_place() + 4
    }

    // Length, version, counts, cleared quantities and the prices of the market's rows.
    pub fn certificate_head_size(self) -> usize
        ensures { result ≡ certificate_head_size self }
    {
        self.market_prices_place() + 4 * self.curves()
    }

    // A resource's amounts, and the prices of its rows.
    pub fn entry_size(self) -> usize
        ensures { result ≡ entry_size self }
    {
        4 * self.services() + 4 * self.resource_rows()
    }
}
