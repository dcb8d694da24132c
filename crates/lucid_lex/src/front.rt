// The piece that begins a text: one function for each way in which one may begin. Each returns the result of specs/Front.antt; that this
// is the longest piece there is a law about those definitions.
ghost use Rattle.std.specs.Prelude.{◌≡◌, ◌+◌, ◌*◌, ◌^◌, ◌<◌, ◌≤◌, ◌&&◌, ◌==◌, length, option_map, SomeIff, IfSome};
ghost use Rattle.std.specs.Char.{digit_value};
ghost use Rattle.std.specs.List.{prefix_len};
ghost use Rattle.lucid_lex.specs.Byte.{is_name_byte, is_quotable, is_within_line};
ghost use Rattle.lucid_lex.specs.Front.{gap, token, kind_of_name, name_front, digits_len, after_prefix, numeral_front, number_front, quoted_front, end_of_block, comment_front, sign_front, front_of};
ghost use Rattle.lucid_lex.specs.Piece.{number_of};

use crate::byte::Class;
use crate::token::Kind;
use crate::{byte, sign, word};

/// How many bytes a piece has, and the kind of a token; a blank or a comment has none.
#[derive(Clone, Copy)]
pub(crate) struct Front {
    pub(crate) len: usize,
    pub(crate) kind: Option<Kind>,
}

/// Returns a blank or a comment of `len` bytes.
fn gap(len: usize) -> Option<Front>
    ensures { result ≡ gap len }
{
    Some(Front { len, kind: None })
}

/// Returns a token of `len` bytes.
fn token(len: usize, kind: Kind) -> Option<Front>
    ensures { result ≡ token len kind }
{
    Some(Front {
        len,
        kind: Some(kind),
    })
}

/// Returns the longest piece that begins the text, if one does. A number of 2 ^ 64 or more is none.
#[tactic(auto, unfolding(crate::specs::Front::front_of))]
pub(crate) fn front_of(text: &[u8]) -> Option<Front>
    ensures { result ≡ front_of text.now }
{
    match text {
        [] => None,
        [first, ..] => match byte::class_of(*first) {
            Class::Blank => gap(1),
            Class::Quote => quoted_front(text),
            Class::Slash => comment_front(text),
            Class::Digit => number_front(text),
            Class::Letter => name_front(text),
            Class::Mark => sign_front(text),
        },
    }
}

/// Returns the longest run of bytes of a name: a reserved word, or else a name.
#[tactic(auto, unfolding(crate::specs::Front::name_front))]
fn name_front(text: &[u8]) -> Option<Front>
    ensures { result ≡ name_front text.now }
{
    let len = name_len(text);
    token(len, kind_of_name(&text[..len]))
}

fn name_len(text: &[u8]) -> usize
    ensures { result ≡ prefix_len is_name_byte text.now }
{
    text.iter().take_while(|b| byte::is_name_byte(**b)).count()
}

fn kind_of_name(bytes: &[u8]) -> Kind
    ensures { result ≡ kind_of_name bytes.now }
{
    match word::word_in(bytes) {
        Some(word) => Kind::Word(word),
        None => Kind::Name,
    }
}

/// Returns the longest run of digits, hexadecimal ones if `0x` and one of them begin it. It is taken whole before its size is asked, so
/// that a number of 2 ^ 64 or more is no shorter number.
#[tactic(auto, unfolding(crate::specs::Front::number_front))]
fn number_front(text: &[u8]) -> Option<Front>
    ensures { result ≡ number_front text.now }
{
    match after_prefix(text) {
        None => numeral_front(text, 10, 0),
        Some(digits) => numeral_front(digits, 16, 2),
    }
}

/// Returns the bytes behind `0x`, if it and a hexadecimal digit begin the text.
#[tactic(auto, unfolding(crate::specs::Front::after_prefix))]
fn after_prefix(text: &[u8]) -> Option<&[u8]>
    ensures { option_map (λ digits. digits.now) result ≡ after_prefix text.now }
{
    match text {
        [a, b, digits @ ..] => {
            if (*a == b'0' && *b == b'x') && 0 < digits_len(digits, 16) {
                Some(digits)
            } else {
                None
            }
        }
        _ => None,
    }
}

/// Returns the number at the start of the digits, after a prefix of `skipped` bytes.
fn numeral_front(digits: &[u8], base: u8, skipped: usize) -> Option<Front>
    requires room { length digits.now + skipped < 2 ^ 64 }
    requires positive { 0 < base }
    ensures { result ≡ numeral_front base skipped digits.now }
{
    let len = digits_len(digits, base);
    let number = number_of(&digits[..len], base)?;
    token(skipped + len, Kind::Number(number))
}

fn digits_len(text: &[u8], base: u8) -> usize
    ensures { result ≡ digits_len base text.now }
{
    text.iter()
        .take_while(|b| byte::digit_value(**b) < base)
        .count()
}

/// Returns the number that the digits write, if it is below 2 ^ 64.
fn number_of(digits: &[u8], base: u8) -> Option<u64>
    requires { 0 < base }
    ensures { SomeIff result (number_of base digits.now < 2 ^ 64) (number_of base digits.now) }
{
    let mut number = 0;
    for digit in digits {
        number = with_digit(number, base, *digit)?;
    }
    Some(number)
}

/// Returns the number with one more digit at its end, if it is below 2 ^ 64.
fn with_digit(number: u64, base: u8, digit: u8) -> Option<u64>
    ensures { SomeIff result (number * base + digit_value digit < 2 ^ 64) (number * base + digit_value digit) }
{
    number
        .checked_mul(u64::from(base))?
        .checked_add(u64::from(byte::digit_value(digit)))
}

/// Returns a text, from its quote to the next, if only quotable bytes are between.
#[tactic(auto, unfolding(crate::specs::Front::quoted_front))]
fn quoted_front(text: &[u8]) -> Option<Front>
    ensures { result ≡ quoted_front text.now }
{
    match text {
        [_, body @ ..] => {
            let len = quotable_len(body);
            match &body[len..] {
                [b'"', ..] => token(len + 2, Kind::Text),
                _ => None,
            }
        }
        _ => None,
    }
}

fn quotable_len(text: &[u8]) -> usize
    ensures len { result ≡ prefix_len is_quotable text.now }
    ensures within { result ≤ length text.now }
{
    text.iter().take_while(|b| byte::is_quotable(**b)).count()
}

/// Returns a comment: `//` and the rest of the line, or `/*` to the next `*/`.
#[tactic(auto, unfolding(crate::specs::Front::comment_front))]
fn comment_front(text: &[u8]) -> Option<Front>
    ensures { result ≡ comment_front text.now }
{
    match text {
        [_, second, body @ ..] => {
            if *second == b'/' {
                gap(line_len(body) + 2)
            } else if *second == b'*' {
                gap(block_len(body)? + 2)
            } else {
                None
            }
        }
        _ => None,
    }
}

fn line_len(text: &[u8]) -> usize
    ensures len { result ≡ prefix_len is_within_line text.now }
    ensures within { result ≤ length text.now }
{
    text.iter().take_while(|b| **b != b'\n').count()
}

/// Returns whether two bytes are `*/`.
fn ends_block(a: u8, b: u8) -> bool
    ensures { result ≡ (a == 42 && b == 47) }
{
    a == b'*' && b == b'/'
}

/// Returns how many bytes there are to the end of the first `*/`.
fn block_len(text: &[u8]) -> Option<usize>
    ensures len { result ≡ end_of_block 0 text.now }
    ensures within { IfSome result (λ len. len ≤ length text.now) }
{
    for at in 1..text.len() {
        if ends_block(text[at - 1], text[at]) {
            return Some(at + 1);
        }
    }
    None
}

#[tactic(auto, unfolding(crate::specs::Front::sign_front))]
fn sign_front(text: &[u8]) -> Option<Front>
    ensures { result ≡ sign_front text.now }
{
    let sign = sign::sign_at(text)?;
    token(sign.text().len(), Kind::Sign(sign))
}
