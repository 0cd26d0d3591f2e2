ghost use Rattle.std.specs.Prelude.{◌≡◌};
ghost use Rattle.literals.specs.Refusals.{first_failed, refusal_of};
ghost use Rattle.stated.specs.Checks.{not_ones, stated_clause_checks};

use clauses::Clause;
use lists::Literals;
use literals::Refusal;

// Some weight is not 1.
fn not_ones(weights: &[u16]) -> bool
    ensures { result ≡ not_ones weights.now }
{
    weights.iter().any(|w| *w != 1)
}

// Checks a clause as a book states it, with weights and a bound that are all 1. Refused by 2, 1, 3, 4 or 5, the first in this order.
pub fn check_clause(weights: &[u16], numbers: &[i16], bound: u32) -> Result<(), Refusal>
    ensures { refusal_of result ≡ first_failed (stated_clause_checks weights.now numbers.now bound) }
{
    Literals::read(numbers)?;
    if not_ones(weights) {
        return Err(Refusal::Weight);
    }
    Clause::new(numbers)?;
    if bound != 1 {
        return Err(Refusal::Degree);
    }
    Ok(())
}
