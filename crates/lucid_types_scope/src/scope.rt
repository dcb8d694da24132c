// The names in scope.
ghost use Rattle.std.specs.Prelude.{◌≡◌, ◌∷◌, ◌-◌, ℕ, List, [], drop, length, if◌then◌else◌, IsSome, OnOk, OnErr};
ghost use Rattle.std.specs.Option.{option_copied};
ghost use Rattle.std.specs.Str.{bytes_eq};
ghost use Rattle.lucid_types_spec.specs.Names.{seen};
ghost use Rattle.lucid_types_scope.specs.Places.{newest_of};

use indexmap::IndexMap;
use lucid_base::{Id, Memory};
use lucid_seed::Seeded;
use lucid_types_spec::{Entry, Named};
use std::alloc::Global;
use std::marker::Model;

/// The names in scope. Contracts see them as the rules do: the newest first. The table of names is seeded by the text that contains them,
/// so colliding names can't be chosen beforehand.
#[derive(Drop)]
pub struct Scope {
    alloc: Global,
    kept: Vec<Kept>,
    // For each name the place in `kept` of its newest entry, if one is left.
    newest: IndexMap<Id, Option<usize>, Seeded>,
}

// A name in scope, and the place of the entry of the same name that it hides.
#[derive(Drop)]
struct Kept {
    named: Named,
    hides: Option<usize>,
}

impl Model for Scope {
    ghost use Rattle.lucid_types_spec.specs.Names.{Names};

    ghost Value = { Names };

    ghost use Rattle.lucid_types_scope.specs.Places.{names_of, IsIndexed};

    ghost view = { λ s. names_of s.kept.items };

    ghost invariant = { λ s. IsIndexed s.kept.items s.newest };
}

impl Scope {
    /// Returns an empty scope.
    pub fn new(alloc: Global, seeded: Seeded) -> Scope
        ensures { result ≡ [] }
    {
        Scope {
            alloc,
            kept: Vec::new(alloc),
            newest: IndexMap::with_hasher(alloc, seeded),
        }
    }

    /// Returns the entry of the name: its newest declaration.
    pub fn find(&self, name: &Id) -> Option<&Entry>
        ensures { option_copied result ≡ seen name.now self.now }
    {
        match place_of(&self.newest, name) {
            Some(at) => Some(&self.kept[at].named.entry),
            None => None,
        }
    }

    /// Adds a name, which hides earlier ones of its text.
    pub fn enter(&mut self, named: Named) -> Result<(), Memory>
        ensures ok { OnOk result (self.new ≡ named ∷ self.old) }
        ensures err { OnErr result (self.new ≡ self.old) }
    {
        let name = named.name.copy(self.alloc)?;
        let at = self.kept.len();
        let hides = place_of(&self.newest, &name);
        self.kept.push(Kept { named, hides })?;
        if self.newest.insert(name, Some(at)).is_err() {
            self.kept.pop();
            return Err(Memory);
        }
        Ok(())
    }

    /// Returns how many names there are.
    pub fn len(&self) -> usize
        ensures { result ≡ length self.now }
    {
        self.kept.len()
    }

    /// Ends the newest names, so that at most `len` are left.
    pub fn leave(&mut self, len: usize)
        ensures { self.new ≡ drop (length self.old - len) self.old }
    {
        while self.len() > len {
            self.leave_newest();
        }
    }

    // Ends the newest name, so that the one that it hides is found again.
    fn leave_newest(&mut self)
        ensures { self.new ≡ drop 1 self.old }
    {
        if let Some(ended) = self.kept.pop() {
            uncover(&mut self.newest, ended);
        }
    }
}

// The place of the newest entry of this name.
fn place_of(newest: &IndexMap<Id, Option<usize>, Seeded>, name: &Id) -> Option<usize>
    ensures { result ≡ newest_of newest.now name.now }
{
    match newest.get(name) {
        Some(place) => *place,
        None => None,
    }
}

// Once this entry has ended, the newest entry of its name, which has a place, is the one that it hid.
fn uncover(newest: &mut IndexMap<Id, Option<usize>, Seeded>, ended: Kept)
    requires { IsSome (newest_of newest.old ended.named.name) }
    ensures { (name : List ℕ) → newest_of newest.new name ≡ if bytes_eq ended.named.name name then ended.hides else newest_of newest.old name }
{
    if let Some(place) = newest.get_mut(&ended.named.name) {
        *place = ended.hides;
    }
}
