ghost use Rattle.std.specs.Prelude.{◌≡◌, ℕ, ◌-◌, ◌<◌, ◌≤◌, true, [], ◌∷◌, ◌++◌, length, slice_index_or, take};
ghost use Rattle.runs.specs.declared.step.Step.{Step};
ghost use Rattle.told.specs.Trails.{items_of};
ghost use Rattle.literals.specs.Settings.{free};
ghost use Rattle.runs.specs.Views.{opened, standing};
ghost use Rattle.session.specs.Logs.{Front, view_of};

use crate::log::Log;
use literals::Literal;
use runs::{State, Step};
use told::Trail;

// How many steps are left at level k, from the first on: the levels of a trail rise.
fn front(steps: &[Step], k: u8) -> usize
    ensures few { result ≤ length steps.now }
    ensures above { (i : ℕ) (x : Step) → result ≤ i → i < length steps.now → k < (slice_index_or steps.now i x).level }
    ensures last { (x : Step) → 0 < result → (slice_index_or steps.now (result - 1) x).level ≤ k }
{
    steps
        .iter()
        .rposition(|step| step.level <= k)
        .map_or(0, |last| last + 1)
}

impl Log {
    // Nothing stands, unsettled, at level 0.
    pub(crate) fn new() -> Log
        ensures { view_of result ≡ opened }
    {
        let none = Step {
            literal: Literal::FIRST,
            level: 0,
            rule: None,
        };
        Log {
            trail: Trail::new(none),
            state: State::Unsettled,
            level: 0,
        }
    }

    // Puts a free literal on the trail.
    pub(crate) fn push(&mut self, step: Step)
        requires { free (standing (items_of self.old.trail)) step.literal ≡ true }
        ensures steps { items_of self.new.trail ≡ items_of self.old.trail ++ step ∷ [] }
        ensures state { self.new.state ≡ self.old.state }
        ensures level { self.new.level ≡ self.old.level }
    {
        // It is not refused, for the literal is free.
        let _ = self.trail.push(step);
    }

    // Drops the steps above level k, and tells how many are left.
    pub(crate) fn cut(&mut self, k: u8) -> usize
        ensures front { Front k (items_of self.old.trail) result }
        ensures steps { items_of self.new.trail ≡ take result (items_of self.old.trail) }
        ensures state { self.new.state ≡ self.old.state }
        ensures level { self.new.level ≡ self.old.level }
    {
        let left = front(self.trail.as_slice(), k);
        self.trail.truncate(left);
        left
    }
}
