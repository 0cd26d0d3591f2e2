ghost use Rattle.std.specs.Prelude.{◌≡◌, IfOk, if◌then◌else◌, Some, None};
ghost use Rattle.literals.specs.Literals.{no_switch};
ghost use Rattle.literals.specs.Refusals.{refusal_of};
ghost use Rattle.session.specs.Positions.{position};

use crate::position::Position;
use literals::{Literal, Refusal, Setting};

impl Position {
    // What the set says of a switch. Refused by 1.
    pub(crate) fn of(set: &Setting, switch: u8) -> Result<Position, Refusal>
        ensures refused { refusal_of result ≡ (if no_switch switch then Some Refusal.OutOfRange else None) }
        ensures position { IfOk result (λ p. p ≡ position set.now switch) }
    {
        let on = Literal::of(switch, true)?;
        if set.stands(on) {
            Ok(Position::On)
        } else if set.is_false(on) {
            Ok(Position::Off)
        } else {
            Ok(Position::Free)
        }
    }
}
