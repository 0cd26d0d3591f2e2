#![tactic(auto)]

// A reader over the bytes of a rulebook, which hands out each field as a part of the text, with its place.
mod close;
mod field;
mod reader;

pub use close::Close;
pub use field::Field;
pub use reader::Reader;
