// The names of the templates of a text.
ghost use Rattle.std.specs.Prelude.{◌≡◌, ◌<◌, ◌∷◌, ◌++◌, [], All, IfErr, IfOk, None, OnOk, bytes_eq, option_map, position};
ghost use Rattle.lucid_lex.specs.Reading.{IsTokenOf};
ghost use Rattle.lucid_size.specs.Expansion.{first_repeat};
ghost use Rattle.lucid_size.specs.Names.{Repeats};
ghost use Rattle.lucid_size.specs.Parts as parts;
ghost use Rattle.lucid_size.specs.Places.{IsWhole};

use crate::error::SizeError;
use crate::template::Template;
use lucid_base::{Id, Memory};
use lucid_lex::{Token, text_of};
use lucid_seed::Seeded;
use std::alloc::Global;
use std::collections::HashMap;
use std::marker::Model;

/// The names of templates, which contracts see as the list of their bytes in the order of the text. Their table is seeded by
/// that text.
#[derive(Drop)]
pub(crate) struct Names {
    names: Vec<Id>,
    // For each name its place in `names`.
    places: HashMap<Id, usize, Seeded>,
}

impl Model for Names {
    ghost use Rattle.std.specs.Prelude.{List, ℕ};

    ghost Value = { List (List ℕ) };

    ghost use Rattle.lucid_seed.specs.Seed.{IsIndexed};

    ghost view = { λ t. t.names.items };

    ghost invariant = { λ t. IsIndexed t.names.items t.places };
}

impl Names {
    /// Returns an empty list of names.
    pub(crate) fn new(alloc: Global, seeded: Seeded) -> Names
        ensures { result ≡ [] }
    {
        Names {
            names: Vec::new(alloc),
            places: HashMap::with_hasher(alloc, seeded),
        }
    }

    /// Returns the number of the template with this name, from 0.
    pub(crate) fn place_of(&self, name: &Id) -> Option<usize>
        ensures { result ≡ position (bytes_eq name.now) self.now }
    {
        self.places.get(name).copied()
    }

    /// Adds a name, unless it is there.
    fn add_new(&mut self, alloc: Global, bytes: &[u8]) -> Result<(), SizeError>
        requires { All (λ b. b < 128) bytes.now }
        ensures added { OnOk result (self.new ≡ self.old ++ bytes.now ∷ []) }
        ensures new { OnOk result (position (bytes_eq bytes.now) self.old ≡ None) }
        ensures err { IfErr result (λ e. Repeats (option_map (λ _. bytes.now) (position (bytes_eq bytes.now) self.old)) e) }
    {
        let name = Id::new(alloc, bytes)?;
        if self.place_of(&name).is_some() {
            return Err(SizeError::Twice { name });
        }
        self.add(alloc, name)?;
        Ok(())
    }

    /// Adds a name that is new.
    fn add(&mut self, alloc: Global, name: Id) -> Result<(), Memory>
        requires { position (bytes_eq name) self.old ≡ None }
        ensures { OnOk result (self.new ≡ self.old ++ name ∷ []) }
    {
        match name.copy(alloc) {
            Ok(key) => self.put(key, name),
            Err(error) => {
                drop(name);
                Err(error)
            }
        }
    }

    /// Adds a name that is new, with a copy of it for the table.
    fn put(&mut self, key: Id, name: Id) -> Result<(), Memory>
        requires copy { key ≡ name }
        requires new { position (bytes_eq name) self.old ≡ None }
        ensures { OnOk result (self.new ≡ self.old ++ name ∷ []) }
    {
        let place = self.names.len();
        match self.names.push(name) {
            Ok(()) => {}
            Err(failed) => {
                drop(failed);
                drop(key);
                return Err(Memory);
            }
        }
        match self.places.insert(key, place) {
            Ok(_) => Ok(()),
            Err(failed) => {
                drop(failed);
                drop(self.names.pop());
                Err(Memory)
            }
        }
    }
}

/// Returns the names of the templates, in their order; or the first that an earlier template has.
pub(crate) fn names_of(
    alloc: Global,
    text: &[u8],
    tokens: &[Token],
    templates: &[Template],
) -> Result<Names, SizeError>
    requires stand { All (IsTokenOf text.now) tokens.now }
    requires whole { All (IsWhole tokens.now) templates.now }
    ensures names { IfOk result (λ names. names ≡ parts.names_of text.now tokens.now templates.now) }
    ensures distinct { IfOk result (λ _. first_repeat [] (parts.names_of text.now tokens.now templates.now) ≡ None) }
    ensures err { IfErr result (λ e. Repeats (first_repeat [] (parts.names_of text.now tokens.now templates.now)) e) }
{
    let mut names = Names::new(alloc, Seeded::by(text));
    for template in templates {
        match names.add_new(alloc, text_of(text, tokens[template.name])) {
            Ok(()) => {}
            Err(error) => {
                drop(names);
                return Err(error);
            }
        }
    }
    Ok(names)
}
