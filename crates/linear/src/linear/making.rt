ghost use Rattle.std.specs.Prelude.{◌≡◌, ◌+◌, map, neg_ℤ, IfOk, sum};
ghost use Rattle.linear.specs.Linears.{at_least_checks, at_most_checks, terms_of};
ghost use Rattle.linear.specs.Terms.{literals as literals_in, weights as weights-in};
ghost use Rattle.literals.specs.Literals.{number};
ghost use Rattle.literals.specs.Refusals.{first_failed, refusal_of};

use crate::linear::Linear;
use crate::terms::Terms;
use literals::Refusal;

const MOST_DEGREE: u32 = 2_000_000;

impl Linear {
    // The weights of the terms whose literal is not false come to the degree at least. Refused by 2, 1, 3, 4 or 5, the first in this order.
    pub fn at_least(weights: &[u16], numbers: &[i16], degree: u32) -> Result<Linear, Refusal>
        ensures refused { refusal_of result ≡ first_failed (at_least_checks weights.now numbers.now degree) }
        ensures weights { IfOk result (λ x. weights-in (terms_of x) ≡ weights.now) }
        ensures literals { IfOk result (λ x. map number (literals_in (terms_of x)) ≡ numbers.now) }
        ensures degree { IfOk result (λ x. x.degree ≡ degree) }
    {
        let terms = Terms::read(weights, numbers)?;
        if degree < 1 || degree > MOST_DEGREE {
            return Err(Refusal::Degree);
        }
        Ok(Linear { terms, degree })
    }

    // The weights of the literals that stand come to the bound at most: kept as a rule over the opposite literals whose
    // degree is the sum of the weights less the bound. Refused by 2, 1, 3, 4 or 5, the first in this order.
    pub fn at_most(weights: &[u16], numbers: &[i16], bound: u32) -> Result<Linear, Refusal>
        ensures refused { refusal_of result ≡ first_failed (at_most_checks weights.now numbers.now bound) }
        ensures weights { IfOk result (λ x. weights-in (terms_of x) ≡ weights.now) }
        ensures literals { IfOk result (λ x. map number (literals_in (terms_of x)) ≡ map neg_ℤ numbers.now) }
        ensures degree { IfOk result (λ x. x.degree + bound ≡ sum weights.now) }
    {
        let terms = Terms::read(weights, numbers)?;
        let total = terms.total();
        if bound >= total {
            return Err(Refusal::Degree);
        }
        Ok(Linear {
            terms: terms.opposites(),
            degree: total - bound,
        })
    }
}
