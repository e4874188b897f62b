ghost use Rattle.worked.specs.Worked.{WorkedExamples};

/// Every worked example holds.
pub fn worked_examples_hold()
    ensures { WorkedExamples }
{}
