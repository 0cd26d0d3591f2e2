ghost use Rattle.std.specs.Prelude.{◌≡◌, [], length, take, MatchResult};
ghost use Rattle.literals.specs.Refusals.{first_failed, refusal_of};
ghost use Rattle.literals.specs.Settings.{set_of};
ghost use Rattle.told.specs.Lists.{told_of};
ghost use Rattle.told.specs.Tellings.{Appended, back_checks, tell_checks};

use crate::told::Told;
use crate::trail::Trail;
use literals::{Literal, Refusal, Setting};

impl Told {
    // Nothing was told.
    pub fn new() -> Told
        ensures { told_of result ≡ [] }
    {
        Told {
            trail: Trail::new(Literal::FIRST),
        }
    }

    pub fn count(&self) -> usize
        ensures { result ≡ length (told_of self.now) }
    {
        self.trail.count()
    }

    pub fn set(&self) -> &Setting
        ensures { result.now ≡ set_of (told_of self.now) }
    {
        self.trail.set()
    }

    pub fn as_slice(&self) -> &[Literal]
        ensures { result.now ≡ told_of self.now }
    {
        self.trail.as_slice()
    }

    // Appends the literal of this number: refused by 1 where there is none, by 24 where it stands, by 25 where its opposite does.
    pub fn tell(&mut self, n: i16) -> Result<(), Refusal>
        ensures refused { refusal_of result ≡ first_failed (tell_checks (told_of self.old) n) }
        ensures told { MatchResult result (λ _. Appended (told_of self.old) n (told_of self.new)) (λ _. self.new ≡ self.old) }
    {
        let l = Literal::try_from(n)?;
        self.trail.push(l)
    }

    // Leaves the first n: refused by 30 where fewer were told.
    pub fn take_back(&mut self, n: usize) -> Result<(), Refusal>
        ensures refused { refusal_of result ≡ first_failed (back_checks (told_of self.old) n) }
        ensures told { MatchResult result (λ _. told_of self.new ≡ take n (told_of self.old)) (λ _. self.new ≡ self.old) }
    {
        if n > self.trail.count() {
            return Err(Refusal::FewerTold);
        }
        self.trail.truncate(n);
        Ok(())
    }
}
