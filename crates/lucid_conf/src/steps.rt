// The steps of a scenario.
ghost use Rattle.std.specs.Prelude.{◌≡◌, []};
ghost use Rattle.serde_json.specs.View.{view, items_view};
ghost use Rattle.lucid_conf.specs.declared.key.Key.TheVariants as key;
ghost use Rattle.lucid_conf.specs.Answers.{Gives};
ghost use Rattle.lucid_conf.specs.Items.{step as step_read, go as go_read, look as look_read};
ghost use Rattle.lucid_conf.specs.Named.{NumbersLast, array_names};
ghost use Rattle.lucid_conf.specs.Reading.{each, list};

use crate::items::{number_at, text_at};
use crate::names::{Names, arrays_by_name, number_named};
use crate::reading::{bad_at, take_items};
use crate::{ConfError, Key, Step};
use lucid_base::Items;
use lucid_core::Core;
use lucid_json::{Value, at};
use std::alloc::Global;

// The last of the most stages that a pipeline has.
const LAST_STAGE: u64 = 31;

fn go(item: &Value) -> Option<Step>
    ensures { result ≡ go_read (view item.now) }
{
    match (number_at(item, 1), at(item, 2)) {
        (Some(k), None) if k <= LAST_STAGE => Some(Step::Go(k as u32)),
        _ => None,
    }
}

fn look(core: &Core, names: &Names, item: &Value) -> Option<Step>
    requires { NumbersLast names.now (array_names core.now.arrays) }
    ensures { result ≡ look_read core.now (view item.now) }
{
    match (text_at(item, 1), number_at(item, 2), at(item, 3)) {
        (Some(name), Some(cell), None) => match number_named(names, name) {
            Some(array) => Some(Step::Look { array, cell }),
            None => None,
        },
        _ => None,
    }
}

fn step(core: &Core, names: &Names, item: &Value) -> Option<Step>
    requires { NumbersLast names.now (array_names core.now.arrays) }
    ensures { result ≡ step_read core.now [] (view item.now) }
{
    match text_at(item, 0) {
        Some("enter") => match at(item, 1) {
            Some(_) => None,
            None => Some(Step::Enter),
        },
        Some("go") => go(item),
        Some("look") => look(core, names, item),
        _ => None,
    }
}

/// The steps that the file has, which are moved out of its value.
pub(crate) fn steps(alloc: Global, value: &mut Value, core: &Core) -> Result<Items<Step>, ConfError>
    ensures { Gives result (list (view value.old) key.Steps (step_read core.now)) }
{
    let values = take_items(alloc, value, Key::Steps)?;
    let names = arrays_by_name(alloc, core.arrays())?;
    each_step(alloc, core, &names, values)
}

// Drops the value of each step as soon as the step is read.
fn each_step(
    alloc: Global,
    core: &Core,
    names: &Names,
    values: Vec<Value>,
) -> Result<Items<Step>, ConfError>
    requires { NumbersLast names.now (array_names core.now.arrays) }
    ensures { Gives result (each key.Steps (step_read core.now) [] (items_view values.items)) }
{
    let mut steps = Items::new(alloc);
    for value in values {
        let read = step(core, names, &value);
        drop(value);
        match read {
            None => return bad_at(Key::Steps, steps.len()),
            Some(step) => steps.push(step)?,
        }
    }
    Ok(steps)
}
