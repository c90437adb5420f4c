//! Cases byte for byte.
ghost use Rattle.bench.specs.Model.Cases.{SampleCases};

/// States what a new bench with the sample dictionary does in some cases that can be worked out by hand.
pub fn sample_cases()
    ensures { SampleCases }
{}
