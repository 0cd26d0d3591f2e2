#![tactic(auto)]

// The supply limit of a bakery's oven, and worked facts about it and other rules.
ghost use Rattle.std.specs.Prelude.{◌≡◌, All, IfOk, None, Ok};
ghost use Rattle.linear.specs.Linears.{terms_of};
ghost use Rattle.literals.specs.Refusals.{refusal_of};
ghost use Rattle.supply.specs.Facts.{Holds, limit_degree, limit_terms, worked_facts};

use linear::Linear;
use literals::Refusal;

// Switches 1 to 4 load the line by 20, 16, 16 and 12, and it bears 40.
pub fn supply_limit() -> Result<Linear, Refusal>
    ensures taken { refusal_of result ≡ None }
    ensures terms { IfOk result (λ x. terms_of x ≡ limit_terms) }
    ensures degree { IfOk result (λ x. x.degree ≡ limit_degree) }
    ensures facts { All Holds worked_facts }
{
    Linear::at_most(&[20, 16, 16, 12], &[1, 2, 3, 4], 40)
}
