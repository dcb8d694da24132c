// Programs: a core and a flat core. Each keeps its parts and is valid by its type. A `Core` calls functions by number; in a `Flat` each
// call is inlined.
ghost use Rattle.std.specs.Prelude.{◌≡◌, []};
ghost use Rattle.lucid_core.specs.Fits.{event_fits};
ghost use Rattle.lucid_core.specs.Parts.{made_of};
ghost use Rattle.lucid_core.specs.Valid.{IsValid, IsValidFlat};

use crate::fits::args_fit;
use crate::{EventDef, FunDef, HandlerDef, MemopDef};
use lucid_base::{ArrayDef, Event, Id};
use std::alloc::Global;
use std::marker::Model;

/// An elaborated program: every width is written and every name is a number. Contracts see its parts, which are a valid core.
#[derive(Drop)]
pub struct Core {
    arrays: Vec<ArrayDef>,
    memops: Vec<MemopDef>,
    events: Vec<EventDef>,
    funs: Vec<FunDef>,
    handlers: Vec<HandlerDef>,
    forms: Vec<Id>,
}

impl Model for Core {
    ghost use Rattle.lucid_core.specs.contracts.body.Stmt as stmt;
    ghost use Rattle.std.specs.Coded.{codes};
    ghost use Rattle.lucid_core.specs.Parts.{CoreParts, made_of};
    ghost use Rattle.lucid_core.specs.Valid.{IsValid};

    ghost Value = { CoreParts };

    ghost coded = { Prim.hlevel (codes, stmt.the_row.coded) };

    ghost view = { λ c. made_of c.arrays.items c.memops.items c.events.items c.funs.items c.handlers.items c.forms.items };

    ghost invariant = { λ c. IsValid (made_of c.arrays.items c.memops.items c.events.items c.funs.items c.handlers.items c.forms.items) };
}

impl Core {
    /// Returns the allocator of its lists.
    pub(crate) fn allocator(&self) -> Global {
        *self.arrays.allocator()
    }

    /// Returns the core of these parts. It takes no memory.
    pub fn new(
        arrays: Vec<ArrayDef>,
        memops: Vec<MemopDef>,
        events: Vec<EventDef>,
        funs: Vec<FunDef>,
        handlers: Vec<HandlerDef>,
        forms: Vec<Id>,
    ) -> Core
        requires { IsValid (made_of arrays.items memops.items events.items funs.items handlers.items forms.items) }
        ensures { result ≡ made_of arrays.items memops.items events.items funs.items handlers.items forms.items }
    {
        Core {
            arrays,
            memops,
            events,
            funs,
            handlers,
            forms,
        }
    }

    /// Returns the declared arrays, by number.
    pub fn arrays(&self) -> &[ArrayDef]
        ensures value { result.now ≡ self.now.arrays }
        ensures valid { IsValid self.now }
    {
        self.arrays.as_slice()
    }

    /// Returns the memops of the source, by number.
    pub fn memops(&self) -> &[MemopDef]
        ensures value { result.now ≡ self.now.memops }
        ensures valid { IsValid self.now }
    {
        self.memops.as_slice()
    }

    /// Returns the events, by number.
    pub fn events(&self) -> &[EventDef]
        ensures value { result.now ≡ self.now.events }
        ensures valid { IsValid self.now }
    {
        self.events.as_slice()
    }

    /// Returns the functions, by number. Each calls only functions before it.
    pub fn funs(&self) -> &[FunDef]
        ensures value { result.now ≡ self.now.funs }
        ensures valid { IsValid self.now }
    {
        self.funs.as_slice()
    }

    /// Returns the handlers, by number.
    pub fn handlers(&self) -> &[HandlerDef]
        ensures value { result.now ≡ self.now.handlers }
        ensures valid { IsValid self.now }
    {
        self.handlers.as_slice()
    }

    /// Returns the texts of the prints, by number.
    pub fn forms(&self) -> &[Id]
        ensures value { result.now ≡ self.now.forms }
        ensures valid { IsValid self.now }
    {
        self.forms.as_slice()
    }

    /// Returns whether the event is declared and its arguments have the number and the widths of its parameters.
    pub fn fits(&self, event: &Event) -> bool
        ensures { result ≡ event_fits self.now event.now }
    {
        match self.events.as_slice().get(event.id as usize) {
            None => false,
            Some(declared) => args_fit(declared.params.as_slice(), event.args.as_slice()),
        }
    }
}

/// A program without function calls and groups: its calls are inlined. Contracts see its parts, which are a valid flat core and have no
/// functions.
#[derive(Drop)]
pub struct Flat {
    arrays: Vec<ArrayDef>,
    memops: Vec<MemopDef>,
    events: Vec<EventDef>,
    handlers: Vec<HandlerDef>,
    forms: Vec<Id>,
}

impl Model for Flat {
    ghost use Rattle.std.specs.Prelude.{[]};
    ghost use Rattle.lucid_core.specs.contracts.body.Stmt as stmt;
    ghost use Rattle.std.specs.Coded.{codes};
    ghost use Rattle.lucid_core.specs.Parts.{CoreParts, made_of};
    ghost use Rattle.lucid_core.specs.Valid.{IsValidFlat};

    ghost Value = { CoreParts };

    ghost coded = { Prim.hlevel (codes, stmt.the_row.coded) };

    ghost view = { λ f. made_of f.arrays.items f.memops.items f.events.items [] f.handlers.items f.forms.items };

    ghost invariant = { λ f. IsValidFlat (made_of f.arrays.items f.memops.items f.events.items [] f.handlers.items f.forms.items) };
}

impl Flat {
    /// Returns the flat core of these parts. It takes no memory.
    pub fn new(
        arrays: Vec<ArrayDef>,
        memops: Vec<MemopDef>,
        events: Vec<EventDef>,
        handlers: Vec<HandlerDef>,
        forms: Vec<Id>,
    ) -> Flat
        requires { IsValidFlat (made_of arrays.items memops.items events.items [] handlers.items forms.items) }
        ensures { result ≡ made_of arrays.items memops.items events.items [] handlers.items forms.items }
    {
        Flat {
            arrays,
            memops,
            events,
            handlers,
            forms,
        }
    }

    /// Returns the declared arrays, by number.
    pub fn arrays(&self) -> &[ArrayDef]
        ensures value { result.now ≡ self.now.arrays }
        ensures valid { IsValidFlat self.now }
    {
        self.arrays.as_slice()
    }

    /// Returns the memops of the source, by number.
    pub fn memops(&self) -> &[MemopDef]
        ensures value { result.now ≡ self.now.memops }
        ensures valid { IsValidFlat self.now }
    {
        self.memops.as_slice()
    }

    /// Returns the events, by number.
    pub fn events(&self) -> &[EventDef]
        ensures value { result.now ≡ self.now.events }
        ensures valid { IsValidFlat self.now }
    {
        self.events.as_slice()
    }

    /// Returns the handlers, by number.
    pub fn handlers(&self) -> &[HandlerDef]
        ensures value { result.now ≡ self.now.handlers }
        ensures valid { IsValidFlat self.now }
    {
        self.handlers.as_slice()
    }

    /// Returns the texts of the prints, by number.
    pub fn forms(&self) -> &[Id]
        ensures value { result.now ≡ self.now.forms }
        ensures valid { IsValidFlat self.now }
    {
        self.forms.as_slice()
    }
}
