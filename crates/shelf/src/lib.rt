#![tactic(auto)]

// What every kind of shelf has in common.
mod letter;
mod lettered;
mod shelf;

pub use letter::Letter;
pub use lettered::Lettered;
pub use shelf::{MOST_RULES, Shelf};
