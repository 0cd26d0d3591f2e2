ghost use Rattle.std.specs.Prelude.{◌≡◌, ◌≤◌, [], ◌∷◌, ◌++◌, map, length, take, MatchResult};
ghost use Rattle.literals.specs.Refusals.{first_failed, refusal_of};
ghost use Rattle.literals.specs.Settings.{set_of, taken_checks};
ghost use Rattle.told.specs.Trails.{items_of};

use crate::says::Says;
use crate::trail::Trail;
use bounded::Bounded;
use literals::{Refusal, Setting};

impl<T: Says> Trail<T> {
    // Nothing was said; `fill` stands in the places not in use.
    pub fn new(fill: T) -> Trail<T>
        ensures { items_of result ≡ [] }
    {
        Trail {
            items: Bounded::new(fill),
            set: Setting::new(),
        }
    }

    pub fn count(&self) -> usize
        ensures { result ≡ length (items_of self.now) }
    {
        self.items.len()
    }

    pub fn set(&self) -> &Setting
        ensures { result.now ≡ set_of (map T.literal (items_of self.now)) }
    {
        &self.set
    }

    pub fn as_slice(&self) -> &[T]
        ensures { result.now ≡ items_of self.now }
    {
        self.items.as_slice()
    }

    // Appends x: refused by 24 where its literal stands, by 25 where the opposite does.
    pub fn push(&mut self, x: T) -> Result<(), Refusal>
        ensures refused { refusal_of result ≡ first_failed (taken_checks (set_of (map T.literal (items_of self.old))) (T.literal x)) }
        ensures pushed { MatchResult result (λ _. items_of self.new ≡ items_of self.old ++ x ∷ []) (λ _. self.new ≡ self.old) }
    {
        let l = x.literal();
        self.set.check_free(l)?;
        // There is room: each literal has one of 64 switches to itself.
        let _ = self.items.push(x);
        self.set = self.set.with(l);
        Ok(())
    }

    // Keeps the first n.
    pub fn truncate(&mut self, n: usize)
        ensures { items_of self.new ≡ take n (items_of self.old) }
    {
        if n < self.count() {
            self.set = self.set_of_first(n);
            self.items.truncate(n);
        }
    }

    // The set without what was said from place n on, the latest taken out first.
    fn set_of_first(&self, n: usize) -> Setting
        requires { n ≤ length (items_of self.now) }
        ensures { result ≡ set_of (map T.literal (take n (items_of self.now))) }
    {
        let mut set = self.set;
        for x in self.as_slice()[n..].iter().rev() {
            set = set.without(x.literal());
        }
        set
    }
}
