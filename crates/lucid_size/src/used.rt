// Which instances are used.
ghost use Rattle.std.specs.Prelude.{◌≡◌, ◌+◌, ◌-◌, ◌<◌, ◌≤◌, [], All, IfErr, IfOk, OnOk, SomeIff, length};
ghost use Rattle.lucid_size.specs.Used.{use_of, uses};
ghost use Rattle.lucid_size.specs.Search.{AreUsed, AreWithin, Sees, with_all, with_one};
ghost use Rattle.lucid_size.specs.Bytes.{steps_len};
ghost use Rattle.lucid_size.specs.Error.{NeedsMore};

use crate::error::SizeError;
use crate::room::room_behind;
use crate::step::{Form, Instance, Step};
use lucid_base::{Items, Memory};
use lucid_seed::Seeded;
use std::alloc::Global;
use std::collections::HashSet;

/// Instances, each once, in the order in which they were found.
#[derive(Drop)]
struct Used {
    found: Vec<Instance>,
    seen: HashSet<Instance, Seeded>,
}

impl Used {
    /// Returns an empty set of instances.
    fn new(alloc: Global, seeded: Seeded) -> Used
        ensures none { result.found.items ≡ [] }
        ensures sees { Sees result.found.items result.seen }
    {
        Used {
            found: Vec::new(alloc),
            seen: HashSet::with_hasher(alloc, seeded),
        }
    }

    /// Adds an instance, unless it is there.
    fn add(&mut self, instance: Instance) -> Result<(), Memory>
        requires { Sees self.old.found.items self.old.seen }
        ensures sees { OnOk result (Sees self.new.found.items self.new.seen) }
        ensures added { OnOk result (self.new.found.items ≡ with_one self.old.found.items instance) }
    {
        match self.seen.insert(instance) {
            Ok(true) => {
                self.found.push(instance)?;
                Ok(())
            }
            Ok(false) => Ok(()),
            Err(failed) => {
                drop(failed);
                Err(Memory)
            }
        }
    }

    /// Adds the instance that a step uses, if it uses one.
    fn add_use(&mut self, width: u64, form: Form) -> Result<(), Memory>
        requires { Sees self.old.found.items self.old.seen }
        ensures sees { OnOk result (Sees self.new.found.items self.new.seen) }
        ensures added { OnOk result (self.new.found.items ≡ with_all self.old.found.items (use_of width form)) }
    {
        match form {
            Form::Use(template, size) => self.add(Instance {
                template,
                width: size.unwrap_or(width),
            }),
            _ => Ok(()),
        }
    }

    /// Adds the uses in these steps.
    fn add_uses(&mut self, width: u64, steps: &[Step]) -> Result<(), Memory>
        requires { Sees self.old.found.items self.old.seen }
        ensures sees { OnOk result (Sees self.new.found.items self.new.seen) }
        ensures added { OnOk result (self.new.found.items ≡ with_all self.old.found.items (uses width steps.now)) }
    {
        for step in steps {
            self.add_use(width, step.form)?;
        }
        Ok(())
    }
}

/// Returns the least set of instances that has the uses outside all templates and those in each of its own instances, each of them once; or
/// TooBig if more is written of them than the room.
pub(crate) fn find_used(
    alloc: Global,
    seeded: Seeded,
    outside: &[Step],
    bodies: &[Items<Step>],
    underscores: usize,
    room: usize,
) -> Result<Vec<Instance>, SizeError>
    requires outside { AreWithin (length bodies.now) outside.now }
    requires bodies { All (AreWithin (length bodies.now)) bodies.now }
    requires steps { All (All (λ s. s.from ≤ s.token.span.end)) bodies.now }
    ensures found { IfOk result (λ f. AreUsed outside.now bodies.now f.items) }
    ensures within { IfOk result (λ f. All (λ i. i.template < length bodies.now) f.items) }
    ensures err { IfErr result (NeedsMore room 0 underscores outside.now bodies.now) }
{
    let mut used = Used::new(alloc, seeded);
    match search(&mut used, outside, bodies, underscores, room) {
        Ok(()) => {}
        Err(error) => {
            drop(used);
            return Err(error);
        }
    }
    Ok(used.found)
}

/// Adds the uses outside all templates, and then those in each instance that is found.
fn search(
    used: &mut Used,
    outside: &[Step],
    bodies: &[Items<Step>],
    underscores: usize,
    room: usize,
) -> Result<(), SizeError>
    requires none { used.old.found.items ≡ [] }
    requires sees { Sees used.old.found.items used.old.seen }
    requires outside { AreWithin (length bodies.now) outside.now }
    requires bodies { All (AreWithin (length bodies.now)) bodies.now }
    requires steps { All (All (λ s. s.from ≤ s.token.span.end)) bodies.now }
    ensures found { OnOk result (AreUsed outside.now bodies.now used.new.found.items) }
    ensures within { OnOk result (All (λ i. i.template < length bodies.now) used.new.found.items) }
    ensures err { IfErr result (NeedsMore room 0 underscores outside.now bodies.now) }
{
    let mut room = room;
    used.add_uses(0, outside)?;
    let mut at = 0;
    while at < used.found.len() {
        let instance = used.found[at];
        let body = bodies[instance.template].as_slice();
        match instance_room(underscores, instance.width, body, room) {
            None => return Err(SizeError::TooBig),
            Some(left) => room = left,
        }
        used.add_uses(instance.width, body)?;
        at += 1;
    }
    Ok(())
}

/// Returns the room that is left behind an instance.
fn instance_room(underscores: usize, width: u64, body: &[Step], room: usize) -> Option<usize>
    requires { All (λ s. s.from ≤ s.token.span.end) body.now }
    ensures { SomeIff result (4 + steps_len underscores width body.now ≤ room) (room - (4 + steps_len underscores width body.now)) }
{
    room_behind(underscores, width, body, room.checked_sub(4)?)
}
