// Examples of loading and dumping, whole, as a theorem about the definitions.
#![tactic(auto)]

ghost use Rattle.worked.specs.Worked.{Worked};

// Each example comes out as it says; the function does nothing.
pub fn examples_stand()
    ensures { Worked }
{}
