// Laws of the definitions, for callers that expand a text. Nothing runs.
ghost use Rattle.std.specs.Prelude.{◌≡◌, List, None, Ok, []};
ghost use Rattle.lucid_lex.specs.Piece.{Piece};
ghost use Rattle.lucid_lex.specs.Reading.{Reads, joined, tokens_from};
ghost use Rattle.lucid_size.specs.Parts.{names_of};
ghost use Rattle.lucid_size.specs.Expansion.{ExpandsTo, IsExpansion, first_repeat};
ghost use Rattle.lucid_size.specs.Templates.{templates};
ghost use Rattle.lucid_size.specs.declared.template.Template.{Template};

use lucid_lex::Token;

/// The text of an expansion is read as the tokens of its pieces. A text has one expansion at most, and it has one if its templates are
/// whole and differ in name.
pub fn expansions_are_read(text: &[u8], tokens: &[Token])
    requires { Reads text.now tokens.now }
    ensures read { (pieces : List Piece) → IsExpansion text.now tokens.now pieces → Reads (joined pieces []) (tokens_from 0 pieces) }
    ensures one { (pieces others : List Piece) → IsExpansion text.now tokens.now pieces → IsExpansion text.now tokens.now others → pieces ≡ others }
    ensures there { (xs : List Template) → templates tokens.now ≡ Ok xs → first_repeat [] (names_of text.now tokens.now xs) ≡ None
        → (pieces : List Piece) × IsExpansion text.now tokens.now pieces }
{}

/// A text in which no template begins is its own expansion.
pub fn plain_text_stays(text: &[u8], tokens: &[Token])
    requires reads { Reads text.now tokens.now }
    requires none { templates tokens.now ≡ Ok [] }
    ensures { ExpandsTo text.now tokens.now text.now }
{}
