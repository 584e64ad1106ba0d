// Worked examples, proved in one computation over the definitions that the contracts use.
#![tactic(auto)]

ghost use Rattle.worked.specs.Table.{ExamplesHold};

// Every example of the table is answered as it says.
pub fn examples_hold()
    ensures { ExamplesHold }
{}
