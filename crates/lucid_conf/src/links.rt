// The links of a scenario.
ghost use Rattle.std.specs.Prelude.{◌≡◌, ◌<◌, ◌^◌, IsTrue, []};
ghost use Rattle.serde_json.specs.View.{view, items_view};
ghost use Rattle.lucid_conf.specs.declared.key.Key.TheVariants as key;
ghost use Rattle.lucid_conf.specs.Answers.{Gives};
ghost use Rattle.lucid_conf.specs.Items.{are_linked as are_joined, link as link_read};
ghost use Rattle.lucid_conf.specs.Reading.{each, list};

use crate::items::number_at;
use crate::reading::{bad_at, items};
use crate::{ConfError, Key, Link};
use lucid_base::Items;
use lucid_json::{Value, at};
use std::alloc::Global;

// The longest latency of a link, in ticks.
const MOST_LATENCY: u64 = 65_536;

/// Whether one of the links joins these two, in either direction. It tries them one by one: with no pair twice there are at most 2,016 of 64 switches.
pub(crate) fn are_linked(links: &[Link], a: u64, b: u64) -> bool
    ensures value { result ≡ are_joined links.now a b }
    ensures small { IsTrue result → (a < 2 ^ 32) × (b < 2 ^ 32) }
{
    for l in links {
        if (l.a as u64 == a && l.b as u64 == b) || (l.a as u64 == b && l.b as u64 == a) {
            return true;
        }
    }
    false
}

fn link(switches: u32, before: &[Link], item: &Value) -> Option<Link>
    ensures { result ≡ link_read switches before.now (view item.now) }
{
    match (
        number_at(item, 0),
        number_at(item, 1),
        number_at(item, 2),
        at(item, 3),
    ) {
        (Some(a), Some(b), Some(latency), None)
            if (a < switches as u64 && b < switches as u64 && a != b)
                && (1 <= latency && latency <= MOST_LATENCY)
                && !are_linked(before, a, b) => {
            Some(Link {
                a: a as u32,
                b: b as u32,
                latency,
            })
        }
        _ => None,
    }
}

/// The links that the file has.
pub(crate) fn links(alloc: Global, value: &Value, switches: u32) -> Result<Items<Link>, ConfError>
    ensures { Gives result (list (view value.now) key.Links (link_read switches)) }
{
    each_link(alloc, switches, items(value, Key::Links)?)
}

fn each_link(alloc: Global, switches: u32, values: &[Value]) -> Result<Items<Link>, ConfError>
    ensures { Gives result (each key.Links (link_read switches) [] (items_view values.now)) }
{
    let mut links = Items::new(alloc);
    for value in values {
        match link(switches, links.as_slice(), value) {
            None => return bad_at(Key::Links, links.len()),
            Some(link) => links.push(link)?,
        }
    }
    Ok(links)
}
