ghost use Rattle.std.specs.Prelude.{◌≡◌, ℕ, ◌-◌, not, ◌&&◌, ◌||◌, Decides};
ghost use Rattle.bits.specs.Words.{bit as has_bit};
ghost use Rattle.literals.specs.declared.literal.Literal.{Literal as Lit};
ghost use Rattle.literals.specs.Literals.{same, opposite};
ghost use Rattle.literals.specs.Refusals.{first_failed, refusal_of};
ghost use Rattle.literals.specs.Settings.{stands, free, free_switch, minus, plus, nothing, free_count, side_word, with_word, taken_checks, ◌⊆◌};

use crate::literal::Literal;
use crate::refusal::Refusal;

// A set of literals: bit n - 1 of the word `on` says that literal n is in it, the same bit of `off` that -n is.
// Both literals of a switch may be in it.
#[derive(Clone, Copy, Debug, PartialEq, Eq, Hash)]
pub struct Setting {
    pub(crate) on: u64,
    pub(crate) off: u64,
}

impl Setting {
    // No literal is in it.
    #[tactic(auto, unfolding(crate::specs::Settings::nothing))]
    pub fn new() -> Setting
        ensures { result ≡ nothing }
    {
        Setting { on: 0, off: 0 }
    }

    // The literal is in the set.
    #[tactic(auto, unfolding(crate::specs::Settings::stands))]
    pub fn stands(&self, l: Literal) -> bool
        ensures { result ≡ stands self.now l }
    {
        let word = if l.on { self.on } else { self.off };
        (word >> (l.switch - 1)) % 2 == 1
    }

    // Its opposite is in the set.
    pub fn is_false(&self, l: Literal) -> bool
        ensures { result ≡ stands self.now (opposite l) }
    {
        self.stands(l.opposite())
    }

    // Neither literal of its switch is in the set.
    #[tactic(auto, using(crate::proofs::Freedom::free_word))]
    pub fn is_free(&self, l: Literal) -> bool
        ensures { result ≡ free self.now l }
    {
        ((self.on | self.off) >> (l.switch - 1)) % 2 == 0
    }

    // Refused by 24 where the literal stands, by 25 where its opposite does.
    pub fn check_free(&self, l: Literal) -> Result<(), Refusal>
        ensures { refusal_of result ≡ first_failed (taken_checks self.now l) }
    {
        if self.stands(l) {
            return Err(Refusal::Stands);
        }
        if self.is_false(l) {
            return Err(Refusal::OppositeStands);
        }
        Ok(())
    }

    // The set with the word of the literal's side changed by `step`.
    fn changed<F: FnOnce(u64) -> u64>(self, l: Literal, step: F) -> Setting
        requires { F.pre step (side_word self l) }
        ensures { (word : ℕ) × F.post step (side_word self l) word × (result ≡ with_word self l word) }
    {
        if l.on {
            Setting {
                on: step(self.on),
                ..self
            }
        } else {
            Setting {
                off: step(self.off),
                ..self
            }
        }
    }

    // The set with the literal added.
    pub fn with(self, l: Literal) -> Setting
        ensures words { result ≡ plus self l }
        ensures stands { (m : Lit) → stands result m ≡ (same l m || stands self m) }
    {
        let bit = 1u64 << (l.switch - 1);
        self.changed(l, |word| word | bit)
    }

    // The set with the literal taken out.
    pub fn without(self, l: Literal) -> Setting
        ensures words { result ≡ minus self l }
        ensures stands { (m : Lit) → stands result m ≡ (not (same l m) && stands self m) }
    {
        let bit = 1u64 << (l.switch - 1);
        self.changed(l, |word| word & !bit)
    }

    // Every literal of the other set is in this one.
    pub fn contains(&self, other: &Setting) -> bool
        ensures { Decides result (other.now ⊆ self.now) }
    {
        self.on | other.on == self.on && self.off | other.off == self.off
    }

    // The switches that are not free, as a word: switch n is bit n - 1.
    pub fn switches(&self) -> u64
        ensures { (n : ℕ) → has_bit result (n - 1) ≡ not (free_switch self.now n) }
    {
        self.on | self.off
    }

    // How many switches are free.
    pub fn free_count(&self) -> u32
        ensures { result ≡ free_count self.now }
    {
        (!(self.on | self.off)).count_ones()
    }
}
