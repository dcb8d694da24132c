// The signs. A sign is added here, in SIGNS and in specs/Sign.antt, and nowhere else.
ghost use Rattle.std.specs.Prelude.{◌≡◌};
ghost use Rattle.lucid_lex.specs.Sign.{sign_text, sign_at};

/// A sign: an operator, a bracket or a mark between parts.
#[derive(Clone, Copy, PartialEq, Eq)]
pub enum Sign {
    /// `|+|`
    SatAdd,
    /// `|-|`
    SatSub,
    /// `&&`
    AndAnd,
    /// `||`
    OrOr,
    /// `==`
    EqualEqual,
    /// `!=`
    NotEqual,
    /// `<=`
    LessEqual,
    /// `>=`
    GreaterEqual,
    /// `<<`
    ShiftLeft,
    /// `>>`
    ShiftRight,
    /// `->`
    Arrow,
    /// `+`
    Plus,
    /// `-`
    Minus,
    /// `&`
    And,
    /// `|`
    Or,
    /// `^`
    Caret,
    /// `~`
    Tilde,
    /// `!`
    Not,
    /// `<`
    Less,
    /// `>`
    Greater,
    /// `=`
    Equal,
    /// `(`
    OpenParen,
    /// `)`
    CloseParen,
    /// `{`
    OpenBrace,
    /// `}`
    CloseBrace,
    /// `,`
    Comma,
    /// `;`
    Semicolon,
    /// `.`
    Dot,
}

/// Every sign, the commonest first, and none before one that it begins: so the first that a text begins with is the longest.
const SIGNS: [Sign; 28] = [
    Sign::Semicolon,
    Sign::OpenParen,
    Sign::CloseParen,
    Sign::Comma,
    Sign::OpenBrace,
    Sign::CloseBrace,
    Sign::Dot,
    Sign::ShiftLeft,
    Sign::ShiftRight,
    Sign::EqualEqual,
    Sign::Equal,
    Sign::Plus,
    Sign::Arrow,
    Sign::Minus,
    Sign::SatAdd,
    Sign::SatSub,
    Sign::OrOr,
    Sign::Or,
    Sign::AndAnd,
    Sign::And,
    Sign::NotEqual,
    Sign::Not,
    Sign::LessEqual,
    Sign::Less,
    Sign::GreaterEqual,
    Sign::Greater,
    Sign::Caret,
    Sign::Tilde,
];

impl Sign {
    /// Returns how the sign is written.
    pub fn text(self) -> &'static [u8]
        ensures { result.now ≡ sign_text self }
    {
        match self {
            Sign::SatAdd => b"|+|",
            Sign::SatSub => b"|-|",
            Sign::AndAnd => b"&&",
            Sign::OrOr => b"||",
            Sign::EqualEqual => b"==",
            Sign::NotEqual => b"!=",
            Sign::LessEqual => b"<=",
            Sign::GreaterEqual => b">=",
            Sign::ShiftLeft => b"<<",
            Sign::ShiftRight => b">>",
            Sign::Arrow => b"->",
            Sign::Plus => b"+",
            Sign::Minus => b"-",
            Sign::And => b"&",
            Sign::Or => b"|",
            Sign::Caret => b"^",
            Sign::Tilde => b"~",
            Sign::Not => b"!",
            Sign::Less => b"<",
            Sign::Greater => b">",
            Sign::Equal => b"=",
            Sign::OpenParen => b"(",
            Sign::CloseParen => b")",
            Sign::OpenBrace => b"{",
            Sign::CloseBrace => b"}",
            Sign::Comma => b",",
            Sign::Semicolon => b";",
            Sign::Dot => b".",
        }
    }
}

/// Returns the longest sign that the text begins with.
#[tactic(auto, unfolding(crate::specs::Sign::sign_at))]
pub(crate) fn sign_at(text: &[u8]) -> Option<Sign>
    ensures { result ≡ sign_at text.now }
{
    SIGNS
        .iter()
        .copied()
        .find(|sign| text.starts_with(sign.text()))
}
