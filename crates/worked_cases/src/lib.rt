// Cases worked by hand, proved of the definitions that the contracts of the code cite.
#![tactic(auto)]

ghost use Rattle.worked_cases.specs.Cases.{WorkedCases};

pub fn worked_cases()
    ensures { WorkedCases }
{}
