// The limits that a declaration can pass.
ghost use Rattle.std.specs.Prelude.{◌≡◌, ◌∷◌, ◌++◌, IfOk, List, []};
ghost use Rattle.lucid_core.specs.declared.defs.FunDef.{FunDef as Fun};
ghost use Rattle.lucid_types_spec.specs.Limits.{first_passed};
ghost use Rattle.lucid_types_limits.specs.NewPart.{Knows, array_passes, event_passes, fun_passes, handler_passes, tally_limits};

use crate::body::stmts;
use crate::cases::cases_are_few;
use crate::tally::Tally;
use lucid_base::Memory;
use lucid_core::{EventDef, FunDef, HandlerDef};
use lucid_parse_tree::S;
use lucid_types_spec::What;
use std::alloc::Global;

/// The state between declarations while no limit is exceeded: the greatest number of outs on a path of each function so far.
#[derive(Drop)]
pub struct Limits {
    pub outs: Vec<u64>,
}

impl Limits {
    /// Returns the state before the first declaration.
    pub fn new(alloc: Global) -> Limits
        ensures { Knows [] result }
    {
        Limits {
            outs: Vec::new(alloc),
        }
    }

    /// Returns the limit exceeded by one more array, given the new total.
    pub fn array(arrays: usize) -> Option<What>
        ensures { result ≡ array_passes arrays }
    {
        if arrays <= 64 {
            None
        } else {
            Some(What::Arrays)
        }
    }

    /// Returns the limit exceeded by a new event.
    pub fn event(event: &EventDef) -> Option<What>
        ensures { result ≡ event_passes event.now }
    {
        if event.params.len() <= 8 {
            None
        } else {
            Some(What::ValueParameters)
        }
    }

    /// Returns the limit exceeded by a new handler with this body in the tree.
    #[tactic(auto, using(crate::proofs::Passing::body_limits_are))]
    pub fn handler(&self, handler: &HandlerDef, body: &[S]) -> Option<What>
        ensures { result ≡ handler_passes self.now.outs.items handler.now body.now }
    {
        body_passes(stmts(self.outs.as_slice(), handler.body.as_slice()), body)
    }

    /// Returns the limit exceeded by a new function with this body in the tree. If it exceeds none, it is added to the functions so far.
    #[tactic(auto, using(crate::proofs::Passing::body_limits_are))]
    pub fn fun(&mut self, fun: &FunDef, body: &[S]) -> Result<Option<What>, Memory>
        ensures passed { IfOk result (λ w. w ≡ fun_passes self.old.outs.items fun.now body.now) }
        ensures known { IfOk result (λ w. w ≡ None → (funs : List Fun) → Knows funs self.old → Knows (funs ++ fun.now ∷ []) self.new) }
    {
        if fun.arrays.len() > 8 {
            return Ok(Some(What::ArrayParameters));
        }
        if fun.params > 8 {
            return Ok(Some(What::ValueParameters));
        }
        let tally = stmts(self.outs.as_slice(), fun.body.as_slice());
        let passed = body_passes(tally, body);
        if passed.is_none() {
            self.outs.push(tally.outs)?;
        }
        Ok(passed)
    }
}

/// Returns the limit exceeded by a body of the tree, with the tally of its core.
fn body_passes(tally: Tally, body: &[S]) -> Option<What>
    ensures { result ≡ first_passed (tally_limits tally body.now) }
{
    if !tally.few {
        Some(What::Arguments)
    } else if tally.outs > 8 {
        Some(What::Outs)
    } else if !cases_are_few(body) {
        Some(What::Cases)
    } else {
        None
    }
}
