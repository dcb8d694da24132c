// The outs of one event, in order.
ghost use Rattle.std.specs.Prelude.{◌≡◌, ◌<◌, ◌≤◌, [], ◌∷◌, ◌++◌, length};

use crate::{Args, Out};
use std::marker::Model;

/// At most 8 outs, which contracts see as their list. The cells past the last hold one filler, so equal lists are equal values.
#[derive(Clone, Copy, Debug, PartialEq, Eq)]
pub struct Outs {
    cells: [Out; 8],
    len: usize,
}

impl Model for Outs {
    ghost use Rattle.std.specs.Prelude.{List, length, take};
    ghost use Rattle.lucid_base.specs.declared.event.Out.{Out};
    ghost use Rattle.lucid_base.specs.Small.{IsSmall, padded, length-used, padded-used};
    ghost use Rattle.lucid_base.specs.Outs.{no_out};

    ghost Value = { List Out };

    ghost view = { λ o. take o.len o.cells };

    ghost invariant = { λ o. IsSmall 8 no_out o.len o.cells };

    ghost inverse = { λ xs. record { cells = padded 8 no_out xs; len = length xs } };

    ghost inverse_ok = { λ o small. Prim.rw (padded-used 8 no_out o.len o.cells small, length-used 8 no_out o.len o.cells small) };
}

impl Outs {
    /// Returns an empty list.
    pub fn new() -> Outs
        ensures { result ≡ [] }
    {
        let filler = Out::Say {
            form: 0,
            args: Args::new(),
        };
        Outs {
            cells: [filler; 8],
            len: 0,
        }
    }

    /// Returns these outs, of which there are at most 8.
    pub fn from_slice(sent: &[Out]) -> Outs
        requires { length sent.now ≤ 8 }
        ensures { result ≡ sent.now }
    {
        let mut outs = Outs::new();
        for out in sent {
            outs.push(*out);
        }
        outs
    }

    /// Appends `v` to fewer than 8 outs.
    pub fn push(&mut self, v: Out)
        requires { length self.old < 8 }
        ensures { self.new ≡ self.old ++ v ∷ [] }
    {
        self.cells[self.len] = v;
        self.len += 1;
    }

    /// Returns the outs, from the first to the last.
    pub fn as_slice(&self) -> &[Out]
        ensures value { result.now ≡ self.now }
        ensures bound { length result.now ≤ 8 }
    {
        &self.cells[..self.len]
    }
}
