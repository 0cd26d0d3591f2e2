ghost use Rattle.std.specs.Prelude.{◌≡◌, not, IfOk, if◌then◌else◌, Some, None};
ghost use Rattle.lists.specs.Lists.{Collects, distinct, mentioned, some_outside};
ghost use Rattle.literals.specs.Refusals.{refusal_of};

use literals::{Literal, Refusal, Setting};

// Some literal of the list is one of this switch.
pub fn mentions(literals: &[Literal], switch: u8) -> bool
    ensures { result ≡ mentioned literals.now switch }
{
    literals.iter().any(|l| l.switch() == switch)
}

// Two literals of the list are of one switch.
pub fn switch_twice(literals: &[Literal]) -> bool
    ensures { result ≡ not (distinct literals.now) }
{
    let mut seen = Setting::new();
    for l in literals {
        if !seen.is_free(*l) {
            return true;
        }
        seen = seen.with(*l);
    }
    false
}

// The set of the literals of these numbers; refused by 1 where one is that of no literal.
pub fn collect(numbers: &[i16]) -> Result<Setting, Refusal>
    ensures refused { refusal_of result ≡ (if some_outside numbers.now then Some Refusal.OutOfRange else None) }
    ensures set { IfOk result (λ s. Collects numbers.now s) }
{
    let mut set = Setting::new();
    for n in numbers {
        let literal = Literal::try_from(*n)?;
        set = set.with(literal);
    }
    Ok(set)
}
