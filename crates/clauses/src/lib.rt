#![tactic(auto)]

// Clauses: one of the literals at least is to stand. A clause is broken where all its literals are false; else it forces
// the one literal that is not false, where that is free.
mod clause;

pub use clause::Clause;
