ghost use Rattle.std.specs.Prelude.{◌≤◌};

mod making;
mod reading;
mod rule;

use crate::terms::Terms;

// The weights of the terms whose literal is not false are to come to the degree at least.
#[derive(Clone, Copy)]
pub struct Linear {
    terms: Terms,
    degree: u32,
    ghost least: { 1 ≤ degree },
    ghost most: { degree ≤ 2000000 },
}
