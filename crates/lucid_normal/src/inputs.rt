// The fields that a packet brings with it.
ghost use Rattle.std.specs.Prelude.{◌≡◌, ◌∷◌, IfOk, drop, length, max, min};
ghost use Rattle.lucid_normal_spec.specs.Program.{arg_widths as args_of, widest as widest_of};

use lucid_base::{Items, Memory, Width};
use lucid_core::EventDef;
use std::alloc::Global;

/// The event, the tick and the switch, and then arguments of these widths.
pub fn input_widths(alloc: Global, args: Items<Width>) -> Result<Items<Width>, Memory>
    ensures { IfOk result (λ widths. widths ≡ 32 ∷ 32 ∷ 32 ∷ args) }
{
    let first = [Width::int(), Width::int(), Width::int()];
    let mut widths = Items::from_slice(alloc, &first)?;
    widths.append(args)?;
    Ok(widths)
}

/// Argument k has the greatest width of a k-th parameter, over all events.
pub fn arg_widths(alloc: Global, events: &[EventDef]) -> Result<Items<Width>, Memory>
    ensures { IfOk result (λ widths. widths ≡ args_of events.now) }
{
    let mut widths = Items::new(alloc);
    for event in events {
        widths = widest(alloc, widths.as_slice(), event.params.as_slice())?;
    }
    Ok(widths)
}

/// The greater width at each position, and the rest of the longer list.
fn widest(alloc: Global, xs: &[Width], ys: &[Width]) -> Result<Items<Width>, Memory>
    ensures { IfOk result (λ widths. widths ≡ widest_of xs.now ys.now) }
{
    let mut widths = Items::new(alloc);
    let both = xs.len().min(ys.len());
    for i in 0..both {
        widths.push(wider(xs[i], ys[i]))?;
    }
    widths.append(rest(alloc, xs, ys, both)?)?;
    Ok(widths)
}

fn wider(x: Width, y: Width) -> Width
    ensures { result ≡ max x y }
{
    if x.get() < y.get() { y } else { x }
}

/// The rest of two lists, of which one has no more than `at` items.
fn rest(alloc: Global, xs: &[Width], ys: &[Width], at: usize) -> Result<Items<Width>, Memory>
    requires { at ≡ min (length xs.now) (length ys.now) }
    ensures { IfOk result (λ widths. widths ≡ widest_of (drop at xs.now) (drop at ys.now)) }
{
    if at < xs.len() {
        Ok(Items::from_slice(alloc, &xs[at..])?)
    } else {
        Ok(Items::from_slice(alloc, &ys[at..])?)
    }
}
