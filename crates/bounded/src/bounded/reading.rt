ghost use Rattle.std.specs.Prelude.{◌≡◌, length};
ghost use Rattle.bounded.specs.Held.{held};

use crate::bounded::Bounded;

impl<T: Copy, const N: usize> Bounded<T, N> {
    pub fn len(&self) -> usize
        ensures { result ≡ length (held self.now) }
    {
        self.len
    }

    pub fn as_slice(&self) -> &[T]
        ensures { result.now ≡ held self.now }
    {
        &self.items[..self.len]
    }
}
