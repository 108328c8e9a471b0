// Whole runs of a writer of documents, and the law over them. The definitions are in specs/, the theorems about them in proofs/;
// each function here stands for the theorem that its contract names.
#![tactic(auto)]

pub mod theorems;
