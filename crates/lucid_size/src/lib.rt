// Functions over a width, as `fun <<w>> int<<w>> inc(int<<w>> x) { .. }`: each is a template, which its uses `inc<<8>>(..)` instantiate at
// a width. `expand` returns the text in which every used instance replaces its template, or the reason why there is none; `has_template`
// returns whether there is anything to expand. specs/ defines the expanded text as a substitution on tokens: Expansion.antt, over
// Templates, Steps (the replacement of a token), Used (the instances), Suffix (their names), Pieces and Parts. By its laws, the expanded
// text is read as the tokens of that substitution, and a text has at most one expansion. The other files of specs/ are invariants of the
// code.
// Used by lucid_top_program, lucid_top and lucid_top_laws. Promises of the program rest on its definitions (docs/TRUSTED.md). Bodies and
// proofs may change; a public clause may only get stronger.
#![tactic(auto)]

mod assembly;
mod error;
mod examples;
mod expansion;
mod kinds;
mod laws;
mod names;
mod parts;
mod room;
mod step;
mod steps;
mod template;
mod templates;
mod underscores;
mod used;
mod widths;
mod writing;

pub use error::SizeError;
pub use expansion::expand;
pub use laws::{expansions_are_read, plain_text_stays};
pub use templates::has_template;
