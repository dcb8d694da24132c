// The check of one body.
ghost use Rattle.std.specs.Prelude.{◌≡◌, ◌≤◌, IfOk, OnOk};
ghost use Rattle.lucid_effects_spec.specs.Schemes.{begun, body_found, scheme_of};
ghost use Rattle.lucid_effects.specs.First.{Judges};

use crate::first::{Refused, is_earlier, keep};
use crate::walk::body;
use lucid_base::{Items, Memory, Steps};
use lucid_constraints::{Atom, Order};
use lucid_core::Stmt;
use lucid_effects_spec::Scheme;
use std::alloc::Global;
use std::sync::ledger::Ledger;

/// Returns the scheme of a body, behind functions with these schemes.
#[tactic(auto, using(lucid_effects_spec::proofs::Counting::scheme_is))]
fn scheme<L: Ledger>(
    alloc: Global,
    schemes: &[Scheme],
    stmts: &[Stmt],
    steps: &mut Steps<L>,
) -> Result<Scheme, Memory>
    ensures scheme { IfOk result (λ s. s ≡ scheme_of schemes.now stmts.now) }
    ensures most { steps.new ≤ (body_found stmts.now schemes.now (begun steps.old)).steps }
{
    steps.tick();
    let ends = Items::from_slice(alloc, &[Atom::Start])?;
    let mut at = Scheme {
        needs: Order::new(alloc),
        ends,
    };
    match body(alloc, schemes, &mut at, steps, stmts) {
        Ok(()) => Ok(at),
        Err(error) => {
            drop(at);
            Err(error)
        }
    }
}

/// Returns the scheme of declaration `decl`, and whether it is the first that isn't in order. A cycle is looked for only if it could be.
pub fn judge<L: Ledger>(
    alloc: Global,
    arrays: u32,
    schemes: &[Scheme],
    decl: u32,
    stmts: &[Stmt],
    first: &mut Option<Refused>,
    steps: &mut Steps<L>,
) -> Result<Scheme, Memory>
    ensures scheme { IfOk result (λ s. s ≡ scheme_of schemes.now stmts.now) }
    ensures most { steps.new ≤ (body_found stmts.now schemes.now (begun steps.old)).steps }
    ensures first { OnOk result (Judges arrays schemes.now decl stmts.now first.old first.new) }
{
    let found = scheme(alloc, schemes, stmts, steps)?;
    if is_earlier(first, decl) {
        match found.needs.cycle(arrays) {
            Ok(cycle) => keep(first, decl, cycle),
            Err(error) => {
                drop(found);
                return Err(error);
            }
        }
    }
    Ok(found)
}
