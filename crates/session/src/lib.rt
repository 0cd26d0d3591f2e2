#![tactic(auto)]

// A session over any shelf: settle, choose, go back, close, and what it tells in every state.
mod log;
mod position;
mod receipt;
mod session;
mod tied;

pub use log::Log;
pub use position::Position;
pub use receipt::{Outcome, Receipt, Returned};
pub use session::Session;
pub use tied::Tied;
