//! The law over every run.
ghost use Rattle.bench.specs.Law.Law.{LawStands};
ghost use Rattle.bench.specs.Law.Courses.{RunsAreCourses};
ghost use Rattle.bench.specs.Law.Commits.{OnlyWholeValuesSet};
ghost use Rattle.bench.specs.Law.Sentences.{LawSays};
ghost use Rattle.bench.specs.Law.VerdictLayers.{ReadLayer, WriteLayer};

/// States that every run of a new bench keeps the law, that a run is what its calls and their losses make of it, and that a node sets a value only where it is whole for a master too.
pub fn law_stands()
    ensures runs { LawStands }
    ensures courses { RunsAreCourses }
    ensures whole { OnlyWholeValuesSet }
{}

/// States what the law says of one transfer: what each report means, and which cannot be.
pub fn law_says()
    ensures { LawSays }
{}

/// States that each verdict's code belongs to the dictionary's layer.
pub fn verdict_layers()
    ensures read { ReadLayer }
    ensures write { WriteLayer }
{}
