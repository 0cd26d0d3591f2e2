#![tactic(auto)]

// A list of bounded length, kept in place: it takes no memory from a heap. It is copied as its elements are, which a rule
// that holds one needs.
mod bounded;
mod full;

pub use bounded::Bounded;
pub use full::Full;
