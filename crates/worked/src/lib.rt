// The worked garage: cases that were worked out by hand, proved from the definitions.
#![tactic(auto)]

ghost use Rattle.sets.specs.Lists.{Each};
ghost use Rattle.worked.specs.Cases.{Right, cases};

/// Every case comes out as worked by hand. There is nothing to run: the contract is the theorem.
pub fn worked_cases()
    ensures { Each Right cases }
{}
