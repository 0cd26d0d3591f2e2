#![tactic(auto)]

// Lists of literals, as callers hand them in and as rules hold them.
mod held;
mod slices;

pub use held::{Literals, MOST_TERMS};
pub use slices::{collect, mentions, switch_twice};
