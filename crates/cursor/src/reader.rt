ghost use Rattle.std.specs.Prelude.{◌≤◌, length};

mod methods;

// A place in a text, never past its end.
#[derive(Clone, Copy, Debug, PartialEq, Eq)]
pub struct Reader<'a> {
    pub(crate) text: &'a [u8],
    pub(crate) at: usize,
    ghost ok: { at ≤ length text.now },
}
