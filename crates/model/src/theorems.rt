// Theorems about the definitions, each on the contract of a function that does nothing.
ghost use Rattle.model.specs.Graph.{Equivalence};

// Being alike by paths is an equivalence.
pub fn alike_is_an_equivalence()
    ensures { Equivalence }
{}
