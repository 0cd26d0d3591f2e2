#![tactic(auto)]

// Literals of 64 switches, sets of literals, and why a call is refused.
mod literal;
mod refusal;
mod setting;

pub use literal::Literal;
pub use refusal::Refusal;
pub use setting::Setting;
