// The bytes that a piece of a text may have, and the kind of piece that a first byte begins.
ghost use Rattle.std.specs.Prelude.{◌≡◌};
ghost use Rattle.std.specs.Char.{digit_value};
ghost use Rattle.lucid_lex.specs.Byte.{is_blank, is_name_start, is_name_byte, is_quotable, class_of};

/// Which pieces may begin with a byte.
#[derive(Clone, Copy)]
pub(crate) enum Class {
    /// A blank.
    Blank,
    /// A text.
    Quote,
    /// A comment.
    Slash,
    /// A number.
    Digit,
    /// A name or a reserved word.
    Letter,
    /// A sign, or nothing.
    Mark,
}

pub(crate) fn class_of(b: u8) -> Class
    ensures { result ≡ class_of b }
{
    if is_blank(b) {
        Class::Blank
    } else if b == b'"' {
        Class::Quote
    } else if b == b'/' {
        Class::Slash
    } else if b.is_ascii_digit() {
        Class::Digit
    } else if is_name_start(b) {
        Class::Letter
    } else {
        Class::Mark
    }
}

fn is_blank(b: u8) -> bool
    ensures { result ≡ is_blank b }
{
    (b == b' ' || b == b'\t') || (b == b'\n' || b == b'\r')
}

fn is_name_start(b: u8) -> bool
    ensures { result ≡ is_name_start b }
{
    b.is_ascii_alphabetic() || b == b'_'
}

pub(crate) fn is_name_byte(b: u8) -> bool
    ensures { result ≡ is_name_byte b }
{
    b.is_ascii_alphanumeric() || b == b'_'
}

/// Returns whether the byte may be between quotes.
pub(crate) fn is_quotable(b: u8) -> bool
    ensures { result ≡ is_quotable b }
{
    (0x20 <= b && b <= 0x7E) && (b != b'"' && b != b'\\')
}

/// Returns the value of a digit in bases up to 36, and 36 for any other byte.
pub(crate) fn digit_value(b: u8) -> u8
    ensures { result ≡ digit_value b }
{
    match b {
        0..b'0' => 36,
        b'0'..=b'9' => b - b'0',
        b':'..b'A' => 36,
        b'A'..=b'Z' => b - b'A' + 10,
        b'['..b'a' => 36,
        b'a'..=b'z' => b - b'a' + 10,
        _ => 36,
    }
}
