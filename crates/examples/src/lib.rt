// The worked examples, as one statement over a list, on the definitions that the contracts cite.
#![tactic(auto)]

ghost use Rattle.std.specs.List.{AllByRecursion};
ghost use Rattle.examples.specs.Examples.{Holds, examples};

// Every example comes out as it is written.
pub fn examples_hold()
    ensures { AllByRecursion Holds examples }
{}
