mod methods;

use crate::trail::Trail;
use literals::Literal;

// The literals that a shelf was told, in order.
#[derive(Drop)]
pub struct Told {
    trail: Trail<Literal>,
}
