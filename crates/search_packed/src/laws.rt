//! The laws, one function each. The clause is the law.

ghost use Rattle.search_packed.specs.Unpacked.{PackedAreTold};
ghost use Rattle.search_packed.specs.Worked.{WorkedLabels};

use search_keys::numbers_are_read_back;

/// No labels share their bytes with others.
#[tactic(auto, using(crate::proofs::UnpackingLemmas::packed_told))]
pub fn packed_are_told()
    ensures { PackedAreTold }
{
    numbers_are_read_back();
}

/// Labels that were packed by hand.
#[tactic(auto, using(crate::proofs::WorkedLemmas::worked))]
pub fn worked_labels()
    ensures { WorkedLabels }
{}
