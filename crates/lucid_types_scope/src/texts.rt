// The texts of prints.
ghost use Rattle.std.specs.Prelude.{◌≡◌, ◌∷◌, ◌++◌, [], None, OnOk, bytes_eq, length, position};
ghost use Rattle.lucid_types_spec.specs.Block.{form_number, one_form};
ghost use Rattle.lucid_types_scope.specs.Numbered.{IsNumbered};

use crate::numbers::number;
use indexmap::IndexMap;
use lucid_base::{Id, Memory};
use lucid_seed::Seeded;
use std::alloc::Global;
use std::marker::Model;

/// The texts of a program so far, which contracts see as the list of their bytes in the order of their numbers. Their table is
/// seeded by the text of the program.
#[derive(Drop)]
pub struct Texts {
    texts: Vec<Id>,
    // For each text its place in `texts`.
    places: IndexMap<Id, usize, Seeded>,
}

impl Model for Texts {
    ghost use Rattle.std.specs.Prelude.{List, ℕ};

    ghost Value = { List (List ℕ) };

    ghost use Rattle.lucid_seed.specs.Seed.{IsIndexed};

    ghost view = { λ t. t.texts.items };

    ghost invariant = { λ t. IsIndexed t.texts.items t.places };
}

impl Texts {
    /// Returns an empty list of texts.
    pub fn new(alloc: Global, seeded: Seeded) -> Texts
        ensures { result ≡ [] }
    {
        Texts {
            texts: Vec::new(alloc),
            places: IndexMap::with_hasher(alloc, seeded),
        }
    }

    /// Returns the number of a text, which is added if it is new. Memory is the answer past the last number that there is.
    pub fn number(&mut self, alloc: Global, text: &Id) -> Result<u32, Memory>
        ensures { IsNumbered result text.now self.old self.new }
    {
        match self.place_of(text) {
            Some(place) => number(place),
            None => {
                let place = self.len();
                self.add(alloc, text)?;
                number(place)
            }
        }
    }

    /// Returns the texts, in the order of their numbers.
    pub fn into_vec(self) -> Vec<Id>
        ensures { result.items ≡ self }
    {
        self.texts
    }

    fn len(&self) -> usize
        ensures { result ≡ length self.now }
    {
        self.texts.len()
    }

    fn place_of(&self, text: &Id) -> Option<usize>
        ensures { result ≡ position (bytes_eq text.now) self.now }
    {
        self.places.get(text).copied()
    }

    // Adds a text that is new.
    fn add(&mut self, alloc: Global, text: &Id) -> Result<(), Memory>
        requires { position (bytes_eq text.now) self.old ≡ None }
        ensures { OnOk result (self.new ≡ self.old ++ text.now ∷ []) }
    {
        let key = text.copy(alloc)?;
        let form = text.copy(alloc)?;
        let place = self.texts.len();
        self.texts.push(form)?;
        match self.places.insert(key, place) {
            Ok(_) => Ok(()),
            Err(_) => {
                self.texts.pop();
                Err(Memory)
            }
        }
    }
}
