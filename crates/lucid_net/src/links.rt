// Which link joins two switches, by a table of all pairs of switches that is made once for a network.
ghost use Rattle.std.specs.Prelude.{◌≡◌, ◌*◌, ◌^◌, ◌<◌, All, IfOk, IfSome, length, true};
ghost use Rattle.std.specs.List.{find, slice_get};
ghost use Rattle.lucid_conf.specs.Items.{joins};
ghost use Rattle.lucid_conf.specs.Kept.{IsLink};
ghost use Rattle.lucid_net.specs.Pairs.{IsTable, with_link};

use lucid_base::Memory;
use lucid_conf::{Link, Scene};
use std::alloc::Global;
use std::marker::Model;

/// The links of a scenario, and for each two switches the position of the link that joins them. Contracts see the links.
#[derive(Drop)]
pub(crate) struct Links<'a> {
    links: &'a [Link],
    switches: usize,
    /// A row for each switch with a cell for each switch: the place in `links` of the link between the two, or `links.len()` if there is none.
    places: Vec<usize>,
}

impl<'a> Model for Links<'a> {
    ghost use Rattle.std.specs.Prelude.{List};
    ghost use Rattle.lucid_conf.specs.declared.scene.Link.{Link};
    ghost use Rattle.lucid_net.specs.Pairs.{IsTable};

    ghost Value = { List Link };

    ghost view = { λ l. l.links.now };

    ghost invariant = { λ l. IsTable l.links.now l.switches l.places.items };
}

impl<'a> Links<'a> {
    /// Returns the links of this scenario. The table takes 8 bytes for each pair of switches.
    pub(crate) fn new(alloc: Global, scene: &'a Scene) -> Result<Links<'a>, Memory>
        requires { All (IsLink scene.now.switches) scene.now.links }
        ensures { IfOk result (λ l. l ≡ scene.now.links) }
    {
        let links = scene.links.as_slice();
        let switches = scene.switches as usize;
        let places = places(alloc, links, switches)?;
        Ok(Links {
            links,
            switches,
            places,
        })
    }

    /// Returns the link that joins the two, if there is one.
    pub(crate) fn between(&self, a: u32, b: u64) -> Option<Link>
        ensures first { result ≡ find (joins a b) self.now }
        ensures joins { IfSome result (λ link. joins a b link ≡ true) }
    {
        let row = a as usize;
        let column = b as usize;
        if row >= self.switches || column >= self.switches {
            return None;
        }
        let place = self.places[row * self.switches + column];
        link_at(self.links, place)
    }
}

/// Returns the link at this position, if there is one.
fn link_at(links: &[Link], place: usize) -> Option<Link>
    ensures { result ≡ slice_get links.now place }
{
    match links.get(place) {
        None => None,
        Some(link) => Some(*link),
    }
}

/// Returns for each pair of switches the index of the first link that joins them.
fn places(alloc: Global, links: &[Link], switches: usize) -> Result<Vec<usize>, Memory>
    requires few { switches < 2 ^ 32 }
    requires within { All (IsLink switches) links.now }
    ensures { IfOk result (λ places. IsTable links.now switches places.items) }
{
    let mut places = vec![in alloc; links.len(); switches * switches]?;
    for place in (0..links.len()).rev() {
        put(&mut places, switches, &links[place], place);
    }
    Ok(places)
}

/// Enters the link at this position for its two ends, in both directions.
fn put(places: &mut Vec<usize>, switches: usize, link: &Link, place: usize)
    requires long { length places.old.items ≡ switches * switches }
    requires link { IsLink switches link.now }
    ensures { places.new.items ≡ with_link switches link.now place places.old.items }
{
    let a = link.a as usize;
    let b = link.b as usize;
    places[a * switches + b] = place;
    places[b * switches + a] = place;
}
