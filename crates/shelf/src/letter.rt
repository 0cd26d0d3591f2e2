ghost use Rattle.std.specs.Prelude.{◌≡◌};

// The letter of a kind of shelf. Its type names the letter's code, so that contracts know which letter it is.
#[derive(Drop)]
pub struct Letter<const CODE: u32> {
    pub letter: char,
    ghost is: { letter ≡ CODE },
}
