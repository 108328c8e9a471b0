// What loading a document comes to, in the words of composing. The definitions are in specs/, the theorems about them in proofs/;
// each function here stands for the theorem that its contract names.
#![tactic(auto)]

pub mod theorems;
