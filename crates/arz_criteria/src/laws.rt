//! Laws of the rules of criteria. Each is the contract of a function that does nothing.
ghost use Rattle.arz_criteria.specs.Laws.{ReadingsAreTold, OneOutcome};

/// There is a test of the patterns of a description, so that its rules always come to something.
pub fn readings_are_told()
    ensures { ReadingsAreTold }
{}

/// Where of each pattern of a description is told whether it has a reading, the rule of patterns has no two outcomes.
pub fn one_outcome()
    ensures { OneOutcome }
{}
