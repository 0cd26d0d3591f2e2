#![tactic(auto)]

// What the lines of a rulebook say: the names line gives the order of the columns, every other line a value for each of them.
mod column;
mod entry;
mod kind;
mod names;
mod order;

pub use column::{Column, UnknownColumn};
pub use entry::{BadField, Entry, read_entry};
pub use kind::{RuleKind, UnknownKind};
pub use names::read_names;
pub use order::Order;
