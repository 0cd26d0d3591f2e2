mod calls;
mod playing;

use session::{Receipt, Session};
use shelf::Shelf;
use std::marker::Model;

// A session with its receipt, where one is out: that is, where a clash stands.
pub struct Player<S: Shelf> {
    pub(crate) session: Session<S>,
    pub(crate) held: Option<Receipt>,
}

// A clause sees the fields. A model says what is held, for the reason that a session has one.
impl<S: Shelf> Model for Player<S> {
    ghost use Rattle.script.specs.Players.{Hand, Player as Seen};
    ghost use Rattle.session.specs.Sessions.{seen};

    ghost Value = { Seen S };

    ghost view = { λ p. record { session = p.session; held = p.held } };

    ghost invariant = { λ p. Hand (seen p.session) p.held };
}
