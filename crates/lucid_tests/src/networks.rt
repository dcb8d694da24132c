// A network on pipelines, tick by tick: how many packets are in flight at a switch, and which slots of its pipe they take. It fails on one
// tick with another count, and over a watch that records nothing.
ghost use Rattle.std.specs.Prelude.{◌≡◌};
ghost use Rattle.lucid_tests.specs.Setup.{Runs};

use crate::setup::{Setup, set_up};
use crate::watching::was_taken;
use lucid_conf::Scene;
use lucid_io::MemSink;
use lucid_net::Net;
use lucid_pipe::{MemWatch, Watch};
use std::alloc::Global;
use std::process::Abort;

const HITS: &str =
    "global Array.t<<32>> hits = Array.create(4); memop plus(int stored, int x) { return stored + x; } \
    event seen(int i, int n); event pkt(int i); \
    handle pkt(int i) { int n = Array.update(hits, i, plus, 1, plus, 1); generate Event.delay(seen(i, n), 10); }";

const TWICE: &str =
    r#"{"stop":30,"events":[{"at":0,"switch":0,"name":"pkt","args":[1]},{"at":0,"switch":0,"name":"pkt","args":[1]}]}"#;

/// The number of packets in flight after a tick. Two events enter at ticks 0 and 1, and the events that they sent at ticks 22 and 23. There
/// are 12 stages.
fn in_flight(tick: u64) -> usize {
    match tick {
        0 | 12 | 22 => 1,
        1..=11 | 23..=29 => 2,
        _ => 0,
    }
}

/// Does the next tick, shows the watch the pipe of switch 0, and returns the number of packets there; None if no tick is left or it failed.
fn packets_after(
    net: &mut Net<'_>,
    scene: &Scene,
    sink: &mut MemSink,
    watch: &mut MemWatch,
) -> Option<usize>
    requires { net.old.scene ≡ scene.now }
    ensures { net.new.scene ≡ net.old.scene }
{
    if net.failed() || net.at() >= scene.stop || scene.switches == 0 {
        return None;
    }
    if net.tick(sink).is_err() {
        return None;
    }
    if let Some(pipe) = net.pipe(0) {
        watch.see(0, pipe);
    }
    Some(net.packets(0))
}

/// Returns whether just the first slots of 12 are taken in this sight.
fn first_are_taken(watch: &MemWatch, sight: usize, slots: u32) -> bool {
    for k in 0..12u32 {
        if was_taken(watch, sight, k) != (k < slots) {
            return false;
        }
    }
    true
}

/// Returns whether the packets of each tick are in flight.
fn ticks_fly(net: &mut Net<'_>, scene: &Scene, sink: &mut MemSink, watch: &mut MemWatch) -> bool
    requires { net.old.scene ≡ scene.now }
{
    for tick in 0..30u64 {
        if packets_after(net, scene, sink, watch) != Some(in_flight(tick)) {
            return false;
        }
    }
    true
}

/// Returns whether the packets of each tick are in flight, and take the first slots after the first two.
fn flies(rt: &impl Abort, alloc: Global, s: &Setup) -> bool
    requires { Runs s.now.core s.now.placed s.now.limits s.now.scene }
{
    let mut sink = MemSink::new(alloc, 8192, Vec::new(alloc)).expect(rt, "memory");
    let mut watch = MemWatch::new(alloc);
    let mut net = Net::piped(alloc, &s.core, &s.placed, &s.scene, &s.limits).expect(rt, "memory");
    let ticks_fly = ticks_fly(&mut net, &s.scene, &mut sink, &mut watch);
    drop(net);
    let flies = ticks_fly && first_are_taken(&watch, 0, 1) && first_are_taken(&watch, 1, 2);
    drop(watch);
    drop(sink);
    flies
}

#[test]
fn packets_are_in_flight_for_as_many_ticks_as_stages(rt: HostRuntime) {
    let s = set_up(&rt, rt.alloc(), HITS, "{}", TWICE);
    let flies = flies(&rt, rt.alloc(), &s);
    drop(s);
    assert!(rt; flies);
}
