ghost use Rattle.std.specs.Prelude.{◌≡◌, ◌+◌, ◌<◌, true, [], ◌∷◌, ◌++◌, None};
ghost use Rattle.told.specs.Trails.{items_of};
ghost use Rattle.literals.specs.Settings.{free};
ghost use Rattle.runs.specs.Views.{opened, standing, step as stepped};
ghost use Rattle.session.specs.Logs.{Cut, Ran, TrailTold, view_of};

use crate::log::Log;
use crate::tied::Tied;
use literals::Literal;
use rules::Verdict;
use runs::{State, Step};
use shelf::Shelf;

// What moves the shelf and the log together.
impl<S: Shelf> Tied<S> {
    // Takes back all that the shelf was told.
    pub(crate) fn new(mut shelf: S) -> Tied<S>
        ensures told { TrailTold (S.Shelf.told result.shelf) result.log }
        ensures rules { S.Shelf.rules result.shelf ≡ S.Shelf.rules shelf }
        ensures view { view_of result.log ≡ opened }
    {
        let _ = shelf.take_back(0);
        Tied {
            shelf,
            log: Log::new(),
        }
    }

    // Tells the shelf a free literal, and puts it on the trail.
    fn put(&mut self, step: Step)
        requires told { TrailTold (S.Shelf.told self.old.shelf) self.old.log }
        requires free { free (standing (items_of self.old.log.trail)) step.literal ≡ true }
        ensures told { TrailTold (S.Shelf.told self.new.shelf) self.new.log }
        ensures rules { S.Shelf.rules self.new.shelf ≡ S.Shelf.rules self.old.shelf }
        ensures steps { items_of self.new.log.trail ≡ items_of self.old.log.trail ++ step ∷ [] }
        ensures state { self.new.log.state ≡ self.old.log.state }
        ensures level { self.new.log.level ≡ self.old.log.level }
    {
        let _ = self.shelf.tell(i16::from(step.literal));
        self.log.push(step);
    }

    // Puts a free literal on the trail as chosen, a level higher. What follows from it is not on the trail yet.
    pub(crate) fn choose(&mut self, literal: Literal)
        requires told { TrailTold (S.Shelf.told self.old.shelf) self.old.log }
        requires free { free (standing (items_of self.old.log.trail)) literal ≡ true }
        requires low { self.old.log.level < 255 }
        ensures told { TrailTold (S.Shelf.told self.new.shelf) self.new.log }
        ensures rules { S.Shelf.rules self.new.shelf ≡ S.Shelf.rules self.old.shelf }
        ensures steps { items_of self.new.log.trail ≡ items_of self.old.log.trail ++ stepped literal (self.old.log.level + 1) None ∷ [] }
        ensures state { self.new.log.state ≡ State.Unsettled }
        ensures level { self.new.log.level ≡ self.old.log.level + 1 }
    {
        let level = self.log.level + 1;
        self.put(Step {
            literal,
            level,
            rule: None,
        });
        self.log.level = level;
        self.log.state = State::Unsettled;
    }

    // Locks what the shelf forces, until it is quiet, or says which rule is broken.
    pub(crate) fn settle(&mut self) -> Option<usize>
        requires told { TrailTold (S.Shelf.told self.old.shelf) self.old.log }
        ensures told { TrailTold (S.Shelf.told self.new.shelf) self.new.log }
        ensures rules { S.Shelf.rules self.new.shelf ≡ S.Shelf.rules self.old.shelf }
        ensures ran { Ran (S.Shelf.rules self.old.shelf) self.old.log result self.new.log }
    {
        loop {
            match self.shelf.ask() {
                Verdict::Quiet => {
                    self.log.state = State::Settled;
                    return None;
                }
                Verdict::Broken(rule) => {
                    self.log.state = State::Clashed(rule);
                    return Some(rule);
                }
                Verdict::Forced(rule, literal) => {
                    let level = self.log.level;
                    self.put(Step {
                        literal,
                        level,
                        rule: Some(rule),
                    });
                }
            }
        }
    }

    // Drops what stands above level k, and is settled there.
    pub(crate) fn drop_above(&mut self, k: u8)
        requires told { TrailTold (S.Shelf.told self.old.shelf) self.old.log }
        ensures told { TrailTold (S.Shelf.told self.new.shelf) self.new.log }
        ensures rules { S.Shelf.rules self.new.shelf ≡ S.Shelf.rules self.old.shelf }
        ensures cut { Cut k (items_of self.old.log.trail) (items_of self.new.log.trail) }
        ensures state { self.new.log.state ≡ State.Settled }
        ensures level { self.new.log.level ≡ k }
    {
        let left = self.log.cut(k);
        let _ = self.shelf.take_back(left);
        self.log.level = k;
        self.log.state = State::Settled;
    }

    // Nothing but the state changes.
    pub(crate) fn shut(&mut self)
        requires told { TrailTold (S.Shelf.told self.old.shelf) self.old.log }
        ensures told { TrailTold (S.Shelf.told self.new.shelf) self.new.log }
        ensures shelf { self.new.shelf ≡ self.old.shelf }
        ensures view { view_of self.new.log ≡ record (view_of self.old.log) { state = State.Shut } }
    {
        self.log.state = State::Shut;
    }
}
