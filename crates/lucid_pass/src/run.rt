// Passes one after another.
ghost use Rattle.std.specs.Prelude.{◌≡◌, ◌≤◌, ◌-◌, ℕ, length, map, take, IfOk, OnOk, OnErr};
ghost use Rattle.lucid_code.specs.Parts.{made_of};
ghost use Rattle.lucid_base.specs.Saturating.{saturating_sum};
ghost use Rattle.lucid_pass_spec.specs.Replace.{MayReplace};
ghost use Rattle.lucid_pass.specs.Through.{through, gone, raised};

use crate::Pass;
use lucid_base::Memory;
use lucid_code::{Code, Op};
use std::alloc::Global;

fn run_one(pass: &mut Box<dyn Pass>, alloc: Global, code: &Code) -> Result<Code, Memory>
    ensures gives { IfOk result (λ new. new ≡ (gives pass.old).makes code.now) }
    ensures count { OnOk result (count pass.new ≡ saturating_sum (count pass.old) (length code.now.ops - length ((gives pass.old).makes code.now).ops)) }
    ensures unchanged { OnErr result (count pass.new ≡ count pass.old) }
    ensures name { called pass.new ≡ called pass.old }
    ensures same { gives pass.new ≡ gives pass.old }
{
    pass.run(alloc, code)
}

/// Returns the code with these operations in place of its own, and how many went.
pub fn replaced(alloc: Global, code: &Code, ops: Vec<Op>) -> Result<(Code, u64), Memory>
    requires { MayReplace code.now (made_of code.now.fields code.now.inputs code.now.arrays ops.items) }
    ensures code { IfOk result (λ r. r.0 ≡ made_of code.now.fields code.now.inputs code.now.arrays ops.items) }
    ensures gone { IfOk result (λ r. r.1 ≡ length code.now.ops - length ops.items) }
{
    let gone = gone(code.ops().len(), ops.len());
    Ok((code.with_ops(alloc, ops)?, gone))
}

fn gone(before: usize, after: usize) -> u64
    requires { after ≤ before }
    ensures { result ≡ before - after }
{
    (before - after) as u64
}

/// Applies the passes to the code, each to the result of the one before, and returns the number of operations that each removed. After
/// Memory the first of them, those that ran, have counted their removals. Boxes, names and meanings stay in any case.
pub fn run_passes_told(
    alloc: Global,
    passes: &mut Vec<Box<dyn Pass>>,
    code: Code,
) -> Result<(Code, Vec<u64>), Memory>
    ensures gives { IfOk result (λ r. r.0 ≡ through (map gives passes.old.items) code) }
    ensures law { IfOk result (λ r. MayReplace code r.0) }
    ensures told { IfOk result (λ r. r.1.items ≡ gone (map gives passes.old.items) code) }
    ensures counts { OnOk result (map count passes.new.items ≡ raised (map count passes.old.items) (gone (map gives passes.old.items) code)) }
    ensures stopped { OnErr result ((k : ℕ) × (k ≤ length passes.old.items) × (map count passes.new.items ≡ raised (map count passes.old.items) (take k (gone (map gives passes.old.items) code)))) }
    ensures names { map called passes.new.items ≡ map called passes.old.items }
    ensures same { map gives passes.new.items ≡ map gives passes.old.items }
{
    let mut code = code;
    let mut told = Vec::new(alloc);
    let _ops = code.ops();
    for i in 0..passes.len() {
        let before = code.ops().len();
        code = run_one(&mut passes[i], alloc, &code)?;
        told.push(gone(before, code.ops().len()))?;
    }
    Ok((code, told))
}

/// Applies the passes to the code, each to the result of the one before.
pub fn run_passes(
    alloc: Global,
    passes: &mut Vec<Box<dyn Pass>>,
    code: Code,
) -> Result<Code, Memory>
    ensures gives { IfOk result (λ new. new ≡ through (map gives passes.old.items) code) }
    ensures law { IfOk result (λ new. MayReplace code new) }
    ensures counts { OnOk result (map count passes.new.items ≡ raised (map count passes.old.items) (gone (map gives passes.old.items) code)) }
    ensures stopped { OnErr result ((k : ℕ) × (k ≤ length passes.old.items) × (map count passes.new.items ≡ raised (map count passes.old.items) (take k (gone (map gives passes.old.items) code)))) }
    ensures names { map called passes.new.items ≡ map called passes.old.items }
    ensures same { map gives passes.new.items ≡ map gives passes.old.items }
{
    Ok(run_passes_told(alloc, passes, code)?.0)
}
