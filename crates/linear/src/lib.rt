#![tactic(auto)]

// Linear rules. The slack of a rule under a set is the sum of the weights of all terms whose literal is not false,
// less the degree. The rule is broken where its slack is below 0; else it forces each free literal whose weight is
// above the slack.
mod linear;
mod term;
mod terms;

pub use linear::Linear;
pub use term::Term;
