// The energy steps of a resource, in the ranges of a valid case.
ghost use Rattle.case_records.specs.Ranged.{RangedSteps};

use market::OfferSteps;

#[derive(Clone, Copy, Drop)]
pub struct OfferInRange {
    pub steps: OfferSteps,
    pub ghost ranged: { RangedSteps steps },
}
