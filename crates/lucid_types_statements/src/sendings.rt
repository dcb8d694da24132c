// The event of a `generate`.
ghost use Rattle.std.specs.Prelude.{◌≡◌, Some, is_some, IfOk, map};
ghost use Rattle.std.specs.Option.{option_copied};
ghost use Rattle.lucid_types_spec.specs.declared.body.Destination.TheVariants.{Group, Switch};
ghost use Rattle.lucid_types_spec.specs.Names.{seen};
ghost use Rattle.lucid_types_spec.specs.Sends.{sent};
ghost use Rattle.lucid_types_spec.specs.Types.{ints};
ghost use Rattle.lucid_types_laws.specs.Reading.{reading};
ghost use Rattle.lucid_types_laws.specs.Sending.{delayed, event_at, is_here, located, named_group, sending_of};
ghost use Rattle.lucid_types_expressions.specs.Gives.{Gives};

use lucid_base::{Id, Items, Memory, Width};
use lucid_core::{Expr, Stmt};
use lucid_parse_tree::{E, V};
use lucid_types_expressions::{Fault, bare, free, given};
use lucid_types_laws::Arguments;
use lucid_types_scope::Scope;
use lucid_types_spec::{Destination, Entry, Param, Sending, ValueType};
use std::alloc::Global;

/// The event and its destination. NoRule if the tree has none.
pub fn sending(alloc: Global, scope: &Scope, x: &V) -> Result<Sending, Fault>
    ensures { Gives result (sending_of x.now scope.now) }
{
    match x {
        V::Paren(x) => sending(alloc, scope, x.get()),
        V::Call(n, xs) => event(alloc, scope, n, xs.as_slice()),
        V::Delay(x, y) => match sending(alloc, scope, x.get()) {
            Ok(inner) => delay(alloc, scope, inner, y),
            Err(fault) => Err(fault),
        },
        V::Locate(x, y) => match sending(alloc, scope, x.get()) {
            Ok(inner) => locate(alloc, scope, inner, y),
            Err(fault) => Err(fault),
        },
    }
}

fn event(alloc: Global, scope: &Scope, n: &Id, xs: &[E]) -> Result<Sending, Fault>
    ensures { Gives result (event_at (seen n.now scope.now) (map reading xs.now) scope.now) }
{
    match scope.find(n) {
        Some(Entry::Event(event, widths)) => {
            match int_params(alloc, widths.as_slice()) {
                Ok(params) => match given(alloc, scope, params.as_slice(), xs) {
                    Ok(Arguments { names, values }) => {
                        drop(names);
                        Ok(Sending {
                            event: *event,
                            args: values,
                            delay: None,
                            to: Destination::Here,
                            delay_first: false,
                        })
                    }
                    Err(fault) => Err(fault),
                },
                Err(_) => Err(Fault::Memory),
            }
        }
        _ => Err(Fault::NoRule),
    }
}

/// The parameters of an event.
fn int_params(alloc: Global, widths: &[Width]) -> Result<Items<Param>, Memory>
    ensures { IfOk result (λ params. params ≡ ints widths.now) }
{
    let mut params = Items::new(alloc);
    for width in widths {
        params.push(Param::Value(ValueType::Int(*width)))?;
    }
    Ok(params)
}

fn delay(alloc: Global, scope: &Scope, sending: Sending, y: &E) -> Result<Sending, Fault>
    ensures { Gives result (delayed (reading y.now) scope.now sending) }
{
    if sending.delay.is_some() {
        drop(sending);
        return Err(Fault::NoRule);
    }
    match free(alloc, scope, y) {
        Ok(ticks) => Ok(delayed_by(sending, ticks)),
        Err(fault) => {
            drop(sending);
            Err(fault)
        }
    }
}

fn delayed_by(sending: Sending, ticks: Expr) -> Sending
    ensures { result ≡ record sending { delay = Some ticks } }
{
    let Sending {
        event,
        args,
        delay,
        to,
        delay_first,
    } = sending;
    drop(delay);
    Sending {
        event,
        args,
        delay: Some(ticks),
        to,
        delay_first,
    }
}

fn locate(alloc: Global, scope: &Scope, sending: Sending, y: &E) -> Result<Sending, Fault>
    ensures { Gives result (located (reading y.now) scope.now sending) }
{
    if !is_here(&sending.to) {
        drop(sending);
        return Err(Fault::NoRule);
    }
    match members(scope, y) {
        Some(members) => match Items::from_slice(alloc, members) {
            Ok(members) => Ok(sent_to_group(sending, members)),
            Err(_) => {
                drop(sending);
                Err(Fault::Memory)
            }
        },
        None => match free(alloc, scope, y) {
            Ok(switch) => Ok(sent_to_switch(sending, switch)),
            Err(fault) => {
                drop(sending);
                Err(fault)
            }
        },
    }
}

fn is_here(to: &Destination) -> bool
    ensures { result ≡ is_here to.now }
{
    matches!(to, Destination::Here)
}

fn sent_to_group(sending: Sending, members: Items<u32>) -> Sending
    ensures { result ≡ record sending { to = Group members } }
{
    let Sending {
        event,
        args,
        delay,
        to,
        delay_first,
    } = sending;
    drop(to);
    Sending {
        event,
        args,
        delay,
        to: Destination::Group(members),
        delay_first,
    }
}

fn sent_to_switch(sending: Sending, switch: Expr) -> Sending
    ensures { result ≡ record sending { to = Switch switch; delay_first = is_some sending.delay } }
{
    let Sending {
        event,
        args,
        delay,
        to,
        delay_first: _,
    } = sending;
    drop(to);
    let delay_first = delay.is_some();
    Sending {
        event,
        args,
        delay,
        to: Destination::Switch(switch),
        delay_first,
    }
}

/// The members of the group whose bare name this is.
fn members<'a>(scope: &'a Scope, y: &E) -> Option<&'a [u32]>
    ensures { option_copied result ≡ named_group (reading y.now).bare scope.now }
{
    match bare(y) {
        Some(n) => match scope.find(n) {
            Some(Entry::Group(members)) => Some(members.as_slice()),
            _ => None,
        },
        None => None,
    }
}

/// The event as a statement of a core.
pub fn sent(sending: Sending) -> Stmt
    ensures { result ≡ sent sending }
{
    let Sending {
        event,
        args,
        delay,
        to,
        delay_first,
    } = sending;
    match to {
        Destination::Here => Stmt::Gen {
            event,
            args,
            delay,
            to: None,
            delay_first,
        },
        Destination::Switch(switch) => Stmt::Gen {
            event,
            args,
            delay,
            to: Some(switch),
            delay_first,
        },
        Destination::Group(members) => Stmt::Multi {
            event,
            args,
            delay,
            members,
        },
    }
}
