#![tactic(auto)]

// Lines of a rulebook: five fields, none empty, parted by exactly one space and ended by a line break.
mod line;
mod reading;

pub use line::{FIELDS, Line};
pub use reading::read_line;
