//! Characters of UTF-8.
ghost use Rattle.std.specs.Prelude.{◌≡◌};
ghost use Rattle.deny_text.specs.Character as spec;

/// Whether a byte goes on with a character of more than one byte.
pub fn goes_on(byte: u8) -> bool
    ensures { result ≡ spec.goes_on byte }
{
    128 <= byte && byte < 192
}
