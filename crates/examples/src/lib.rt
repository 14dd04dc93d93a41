// The worked examples of docs/RULES.md that are proved, as one statement about the definitions that the contracts use.
#![tactic(auto)]

ghost use Rattle.examples.specs.Worked.{Worked};

pub fn examples_hold()
    ensures { Worked }
{}
