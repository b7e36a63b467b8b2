// Worked examples, computed by the checker from the definitions that all contracts cite.
#![tactic(auto)]

ghost use Rattle.cases.specs.Cases.{Right, cases};
ghost use Rattle.std.specs.List.{AllByRecursion};

// Every worked example is right.
pub fn worked_examples()
    ensures { AllByRecursion Right cases }
{}
