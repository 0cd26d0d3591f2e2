#![tactic(auto)]

// Rules as a rulebook states them, line by line, and what is checked of them.
mod clause;
mod pending;

pub use clause::check_clause;
pub use pending::Pending;
