// The reserved words. A word is added here and in specs/Word.antt, and nowhere else.
ghost use Rattle.std.specs.Prelude.{◌≡◌, find};
ghost use Rattle.lucid_lex.specs.Word.{word_text, words_of, word_in};

/// A reserved word, which is never a name.
#[derive(Clone, Copy, PartialEq, Eq)]
pub enum Word {
    Const,
    Global,
    Memop,
    Event,
    Handle,
    Fun,
    If,
    Else,
    Return,
    Generate,
    Printf,
    Int,
    Bool,
    Void,
    True,
    False,
    Hash,
    /// `SELF`, the switch's own number.
    Me,
    /// `Array`, before the calls on arrays.
    ArrayCalls,
    /// `Event`, before the calls on events.
    EventCalls,
    /// `Sys`, before the calls on the switch.
    SysCalls,
    Match,
    With,
    Group,
}

impl Word {
    /// Returns how the word is written.
    pub fn text(self) -> &'static [u8]
        ensures { result.now ≡ word_text self }
    {
        match self {
            Word::Const => b"const",
            Word::Global => b"global",
            Word::Memop => b"memop",
            Word::Event => b"event",
            Word::Handle => b"handle",
            Word::Fun => b"fun",
            Word::If => b"if",
            Word::Else => b"else",
            Word::Return => b"return",
            Word::Generate => b"generate",
            Word::Printf => b"printf",
            Word::Int => b"int",
            Word::Bool => b"bool",
            Word::Void => b"void",
            Word::True => b"true",
            Word::False => b"false",
            Word::Hash => b"hash",
            Word::Me => b"SELF",
            Word::ArrayCalls => b"Array",
            Word::EventCalls => b"Event",
            Word::SysCalls => b"Sys",
            Word::Match => b"match",
            Word::With => b"with",
            Word::Group => b"group",
        }
    }
}

/// Returns the reserved words of `len` bytes.
fn words_of(len: usize) -> &'static [Word]
    ensures { result.now ≡ words_of len }
{
    match len {
        2 => &[Word::If],
        3 => &[Word::Int, Word::Fun, Word::SysCalls],
        4 => &[
            Word::Bool,
            Word::Else,
            Word::Void,
            Word::True,
            Word::Hash,
            Word::Me,
            Word::With,
        ],
        5 => &[
            Word::Event,
            Word::ArrayCalls,
            Word::EventCalls,
            Word::Const,
            Word::Memop,
            Word::False,
            Word::Match,
            Word::Group,
        ],
        6 => &[Word::Handle, Word::Return, Word::Global, Word::Printf],
        8 => &[Word::Generate],
        _ => &[],
    }
}

/// Returns the reserved word that is written so, if one is.
#[tactic(auto, unfolding(crate::specs::Word::word_in))]
pub(crate) fn word_in(bytes: &[u8]) -> Option<Word>
    ensures { result ≡ word_in bytes.now }
{
    words_of(bytes.len())
        .iter()
        .copied()
        .find(|word| word.text() == bytes)
}
