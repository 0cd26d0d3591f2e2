ghost use Rattle.std.specs.Prelude.{◌≡◌, ◌≤◌, ⊤, length};

mod changing;
mod reading;

use std::alloc::AllocError;

// At most N elements: the first `len` of `items`. Neither `==` nor a debug text is derived, which would show the places not in use.
#[derive(Copy, Drop)]
pub struct Bounded<T, const N: usize> {
    items: [T; N],
    len: usize,
    ghost within: { (length items ≡ N) × (len ≤ N) },
}

// Written out, since none is derived for a generic struct with a ghost field. A copy takes no memory.
impl<T: Copy, const N: usize> Clone for Bounded<T, N> {
    ghost is_clone = { λ b c. c ≡ b };

    ghost is_infallible = { λ _. ⊤ };

    fn clone(&self) -> Result<Self, AllocError> {
        Ok(*self)
    }
}
