// The position of an inlined body: its arrays, the numbers of its locals, and the functions before it.
ghost use Rattle.std.specs.Prelude.{◌≡◌, ◌+◌, ◌≤◌, IfOk, IfSome, map, slice_get, take};
ghost use Rattle.std.specs.Option.{option_map};
ghost use Rattle.lucid_core.specs.Computations.{array_of};
ghost use Rattle.lucid_inline.specs.Sites.{most};

use lucid_base::{ArrayName, Items, Memory};
use lucid_core::FunDef;
use std::alloc::Global;

/// The number of a local of the body as one of the handler, in which the body's begin at `first`. No number exceeds 32 bits.
pub fn shifted(first: u32, local: u32) -> Result<u32, Memory>
    ensures { IfOk result (λ n. n ≡ first + local) }
{
    match first.checked_add(local) {
        None => Err(Memory),
        Some(n) => Ok(n),
    }
}

/// The number of the next local behind `locals` others, if `more` locals have numbers of 32 bits.
pub fn next_number(locals: usize, more: usize) -> Result<u32, Memory>
    ensures next { IfOk result (λ n. n ≡ locals) }
    ensures within { IfOk result (λ n. locals + more ≤ most) }
{
    match locals.checked_add(more) {
        Some(all) if all <= u32::MAX as usize => Ok(number(locals)),
        _ => Err(Memory),
    }
}

/// A number of locals as the number of the next one.
pub fn number(n: usize) -> u32
    requires { n ≤ most }
    ensures { result ≡ n }
{
    n as u32
}

/// Function `k` with the functions before it if it exists.
#[inline(never)]
pub fn earlier(funs: &[FunDef], k: u32) -> Option<(&[FunDef], &FunDef)>
    ensures fun { option_map (λ x. x.1.now) result ≡ slice_get funs.now k }
    ensures before { IfSome result (λ x. x.0.now ≡ take k funs.now) }
{
    if (k as usize) < funs.len() {
        Some((&funs[..k as usize], &funs[k as usize]))
    } else {
        None
    }
}

/// The arrays that these names denote, given the arrays passed for the parameters.
#[inline(never)]
pub fn arrays_at(alloc: Global, arrays: &[u32], names: &[ArrayName]) -> Result<Items<u32>, Memory>
    ensures { IfOk result (λ found. found ≡ map (array_of arrays.now) names.now) }
{
    let mut found = Items::new(alloc);
    for name in names {
        found.push(array_at(arrays, *name))?;
    }
    Ok(found)
}

/// The array that a name denotes.
pub fn array_at(arrays: &[u32], name: ArrayName) -> u32
    ensures { result ≡ array_of arrays.now name }
{
    match name {
        ArrayName::Global(a) => a,
        ArrayName::Param(i) => match arrays.get(i as usize) {
            None => 0,
            Some(a) => *a,
        },
    }
}
