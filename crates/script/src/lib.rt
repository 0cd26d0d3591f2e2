#![tactic(auto)]

// Whole lists of calls: a session that is driven by requests, and two sessions compared.
mod comparing;
mod player;
mod replaying;
mod request;

pub use comparing::alike;
pub use player::Player;
pub use replaying::{Played, replay};
pub use request::Request;
