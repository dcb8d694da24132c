// The windows in which a link is down.
ghost use Rattle.std.specs.Prelude.{◌≡◌, []};
ghost use Rattle.serde_json.specs.View.{items_view, view};
ghost use Rattle.lucid_conf.specs.declared.key.Key.TheVariants as key;
ghost use Rattle.lucid_conf.specs.Answers.{Gives};
ghost use Rattle.lucid_conf.specs.Items.{window as window_read};
ghost use Rattle.lucid_conf.specs.Reading.{each};
ghost use Rattle.lucid_conf.specs.Tables.{down_read};

use crate::items::number_at;
use crate::links::are_linked;
use crate::reading::{bad, bad_at, items};
use crate::{ConfError, Down, Key, Link};
use lucid_base::Items;
use lucid_json::{Value, at, get};
use std::alloc::Global;

const MOST_WINDOWS: usize = 1_024;

fn window(links: &[Link], before: &[Down], item: &Value) -> Option<Down>
    ensures { result ≡ window_read links.now before.now (view item.now) }
{
    match (
        number_at(item, 0),
        number_at(item, 1),
        number_at(item, 2),
        number_at(item, 3),
        at(item, 4),
    ) {
        (Some(a), Some(b), Some(from), Some(until), None)
            if are_linked(links, a, b) && from < until && before.len() < MOST_WINDOWS => {
            Some(Down {
                a: a as u32,
                b: b as u32,
                from,
                until,
            })
        }
        _ => None,
    }
}

/// The windows that the file has; in version 1 the key must be absent.
pub(crate) fn down(
    alloc: Global,
    value: &Value,
    version: u64,
    links: &[Link],
) -> Result<Items<Down>, ConfError>
    ensures { Gives result (down_read version links.now (view value.now)) }
{
    if version != 2 && get(value, Key::Down.name()).is_some() {
        return bad(Key::Down);
    }
    each_window(alloc, links, items(value, Key::Down)?)
}

fn each_window(alloc: Global, links: &[Link], values: &[Value]) -> Result<Items<Down>, ConfError>
    ensures { Gives result (each key.Down (window_read links.now) [] (items_view values.now)) }
{
    let mut down = Items::new(alloc);
    for value in values {
        match window(links, down.as_slice(), value) {
            None => return bad_at(Key::Down, down.len()),
            Some(window) => down.push(window)?,
        }
    }
    Ok(down)
}
