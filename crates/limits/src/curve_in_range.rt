// The steps of a demand curve, in the ranges of a valid case. `OfferInRange` has another number of steps, and another fact of them in its
// ghost field, which a type parameter does not choose.
ghost use Rattle.case_records.specs.Ranged.{RangedCurve};

use market::CurveSteps;

#[derive(Clone, Copy, Drop)]
pub struct CurveInRange {
    pub steps: CurveSteps,
    pub ghost ranged: { RangedCurve steps },
}
