// The history of the calls of an object. It exists only in proofs: it takes no byte, and its methods do nothing at run time.
ghost use Rattle.std.specs.Prelude.{◌≡◌, ℕ, List, []};
ghost use Rattle.std.specs.Coded.{coded_list};
ghost use base.Fml.{ftrue};
ghost use Rattle.lucid_io.specs.History.{Heard, coded_heard};

use std::marker::Model;

// The files that were begun, with the bytes of each; the name of the file of each failed call; the bytes that a sink took; the number of
// calls, and of failed ones. Each object uses those that are its own.
#[derive(Drop)]
pub(crate) struct Past {
    ghost heard: { List Heard } by { coded_list coded_heard },
    ghost faulted: { List (List ℕ) },
    ghost taken: { List ℕ },
    ghost calls: { ℕ },
    ghost failed: { ℕ },
}

impl Model for Past {
    ghost also_owns = { λ _. ftrue };
}

// What is noted: a file is being begun, a read put bytes into the front of a buffer, a write took the first bytes of a piece, a call is made,
// or a call failed.
#[derive(Clone, Copy, Drop)]
pub(crate) enum Note<'a> {
    Begun(&'a str),
    Gave(&'a [u8], usize),
    Took(&'a [u8], usize),
    Called,
    Failed,
}

impl Past {
    ghost use Rattle.lucid_io.specs.Past.{heard_then, faulted_then, taken_then, calls_then, failed_then};

    // Returns the empty history.
    pub(crate) fn new() -> Past
        ensures { (result.heard ≡ []) × (result.faulted ≡ []) × (result.taken ≡ []) × (result.calls ≡ 0) × (result.failed ≡ 0) }
    {
        Past {}
    }

    // Returns this history with the note added.
    #[inline(always)]
    pub(crate) fn then(&self, _note: &Note<'_>) -> Past
        ensures { (result.heard ≡ heard_then self.now.heard _note.now) × (result.faulted ≡ faulted_then self.now.heard self.now.faulted _note.now) ×
            (result.taken ≡ taken_then self.now.taken _note.now) × (result.calls ≡ calls_then self.now.calls _note.now) ×
            (result.failed ≡ failed_then self.now.failed _note.now) }
    {
        Past {}
    }
}
