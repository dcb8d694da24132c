// ASCII bytes that a text lends.
ghost use Rattle.std.specs.Prelude.{◌<◌, All};

/// Bytes of a text, all of them ASCII.
#[derive(Clone, Copy)]
pub struct Ascii<'a> {
    pub bytes: &'a [u8],
    ghost ascii: { All (λ b. b < 128) bytes.now },
}
