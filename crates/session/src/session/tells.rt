ghost use Rattle.std.specs.Prelude.{◌≡◌, length, IfOk, if◌then◌else◌, Some, None};
ghost use Rattle.literals.specs.Literals.{no_switch};
ghost use Rattle.literals.specs.Refusals.{refusal_of};
ghost use Rattle.literals.specs.Refusals.{first_failed};
ghost use Rattle.literals.specs.Settings.{free_count};
ghost use Rattle.rules.specs.Scans.{Numbered};
ghost use Rattle.runs.specs.Reasons.{Explains, why_checks};
ghost use Rattle.runs.specs.Views.{standing as set-standing};
ghost use Rattle.session.specs.Positions.{no_place, position};
ghost use Rattle.session.specs.Sessions.{seen};

use crate::position::Position;
use crate::session::Session;
use literals::{Refusal, Setting};
use reasons::{Why, explain};
use runs::{State, Step};
use shelf::Shelf;

// What a session tells, in every state.
impl<S: Shelf> Session<S> {
    pub fn state(&self) -> State
        ensures { result ≡ (seen self.now).state }
    {
        self.tied.log.state
    }

    pub fn level(&self) -> u8
        ensures { result ≡ (seen self.now).level }
    {
        self.tied.log.level
    }

    pub fn trail_len(&self) -> usize
        ensures { result ≡ length (seen self.now).trail }
    {
        self.tied.log.trail.count()
    }

    // A place of the trail, from 1. Refused by 13.
    pub fn trail_place(&self, place: usize) -> Result<Step, Refusal>
        ensures refused { refusal_of result ≡ (if no_place (seen self.now).trail place then Some Refusal.NoSuchPlace else None) }
        ensures step { IfOk result (λ x. Numbered (seen self.now).trail place x) }
    {
        if place < 1 || place > self.trail_len() {
            return Err(Refusal::NoSuchPlace);
        }
        Ok(self.tied.log.trail.as_slice()[place - 1])
    }

    // The set of the literals that stand.
    pub fn standing(&self) -> &Setting
        ensures { result.now ≡ set-standing (seen self.now).trail }
    {
        self.tied.log.trail.set()
    }

    pub fn free_count(&self) -> u32
        ensures { result ≡ free_count (set-standing (seen self.now).trail) }
    {
        self.standing().free_count()
    }

    // On, off or free. Refused by 1.
    pub fn switch(&self, switch: u32) -> Result<Position, Refusal>
        ensures refused { refusal_of result ≡ (if no_switch switch then Some Refusal.OutOfRange else None) }
        ensures position { IfOk result (λ p. p ≡ position (set-standing (seen self.now).trail) switch) }
    {
        let switch = u8::try_from(switch).map_err(|_| Refusal::OutOfRange)?;
        Position::of(self.standing(), switch)
    }

    // Why a switch stands: the rule that locked it, none where it was chosen, and the chosen switches that it is reached from. Refused by 1, or by
    // 29 where it is free.
    pub fn why(&self, switch: u32) -> Result<Why, Refusal>
        ensures refused { refusal_of result ≡ first_failed (why_checks (seen self.now).trail switch) }
        ensures explains { IfOk result (λ w. Explains (S.Shelf.rules self.now.tied.shelf) (seen self.now).trail switch w.rule w.word) }
    {
        explain(&self.tied.shelf, self.tied.log.trail.as_slice(), switch)
    }
}
