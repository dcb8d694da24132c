// Texts that are generated from a number: `gen KIND SEED N` writes one, and `bench SEED N` runs all three on pipelines and summarizes the
// log in one line.
ghost use Rattle.std.specs.Prelude.{◌≡◌, ◌<◌, ◌∷◌, [], IfErr, IfOk, Ok};
ghost use Rattle.lucid_gen.specs.Limits.{limits_text};
ghost use Rattle.lucid_gen.specs.Program.{program_text};
ghost use Rattle.lucid_gen.specs.Scene.{scene_text};
ghost use Rattle.lucid_log_tally.specs.Bench.{bench_line};
ghost use Rattle.lucid_net_spec.specs.Log.{log};
ghost use Rattle.lucid_top_fit.specs.Passes.{PassesRun, passes_view};
ghost use Rattle.lucid_top_words.specs.declared.refusal.Refusal.TheVariants as refusal;
ghost use Rattle.lucid_top_words.specs.Files.{texts_in};
ghost use Rattle.lucid_top_words.specs.Writing.{Performs, nowhere};
ghost use Rattle.lucid_top.specs.Generated.{BenchAnswers, BenchShows, GenAnswers, gen_text};
ghost use Rattle.lucid_top.specs.Held.{ReadyKeeps, ready_view};
ghost use Rattle.lucid_top.specs.Pipes.{RunsCode, network_of, sights_of};
ghost use Rattle.lucid_top_pipes.specs.Watching.{Shown};

use crate::commands::network::run_network;
use crate::commands::setup::Ready;
use lucid_base::Memory;
use lucid_gen::{make_limits, make_program, make_scene};
use lucid_io::{Sink, put_all};
use lucid_log_tally::{Tally, put_bench};
use lucid_pass::Pass;
use lucid_pipe::Watch;
use lucid_top_words::{GenKind, Refusal};
use std::alloc::Global;

/// Writes the generated text.
pub fn generate<W: Sink>(
    alloc: Global,
    kind: GenKind,
    seed: u64,
    events: u32,
    out: &mut W,
) -> Result<(), Refusal>
    requires { 0 < events }
    ensures { Performs nowhere (GenAnswers kind seed events) W.written W.faults out.old out.new result }
{
    let text = made(alloc, kind, seed, events)?;
    put_all(out, text.as_slice())?;
    Ok(())
}

fn made(alloc: Global, kind: GenKind, seed: u64, events: u32) -> Result<Vec<u8>, Memory>
    requires { 0 < events }
    ensures { IfOk result (λ text. text.items ≡ gen_text kind seed events) }
{
    match kind {
        GenKind::Program => make_program(alloc, seed),
        GenKind::Limits => make_limits(alloc),
        GenKind::Scene => make_scene(alloc, seed, events),
    }
}

/// Runs the network of the generated texts, as `run pipe` does, and writes the line that summarizes its log.
pub fn bench<W: Sink, V: Watch>(
    alloc: Global,
    seed: u64,
    events: u32,
    out: &mut W,
    passes: &mut Vec<Box<dyn Pass>>,
    watch: &mut V,
) -> Result<(), Refusal>
    requires { 0 < events }
    ensures performs { let passes' = passes_view called gives count passes.old.items in
        Performs nowhere (BenchAnswers seed events passes') W.written W.faults out.old out.new result }
    ensures ran { let seen = passes_view called gives count in
        PassesRun (RunsCode (program_text seed) limits_text) (seen passes.old.items) (seen passes.new.items) result }
    ensures shown { let passes' = passes_view called gives count passes.old.items in
        Shown (BenchShows seed events passes') (V.seen watch.old) (V.seen watch.new) result }
{
    let texts = texts(alloc, seed, events)?;
    let ready = Ready::read(alloc, texts.as_slice(), passes)?;
    bench_ready(alloc, ready, seed, events, out, watch)
}

// Runs the network, and writes the line.
fn bench_ready<W: Sink, V: Watch>(
    alloc: Global,
    ready: Ready,
    seed: u64,
    events: u32,
    out: &mut W,
    watch: &mut V,
) -> Result<(), Refusal>
    requires { ReadyKeeps ready }
    ensures performs { let line = bench_line seed events (log (network_of (ready_view ready))) in
        Performs nowhere (λ o. o ≡ Ok line) W.written W.faults out.old out.new result }
    ensures shown { Shown (λ o. o ≡ Ok (sights_of (ready_view ready))) (V.seen watch.old) (V.seen watch.new) result }
{
    let tally = tallied(alloc, ready, watch)?;
    put_bench(out, seed, events as u64, &tally)?;
    Ok(())
}

// The three texts.
fn texts(alloc: Global, seed: u64, events: u32) -> Result<Vec<Vec<u8>>, Memory>
    requires { 0 < events }
    ensures { IfOk result (λ texts. texts_in texts.items ≡ program_text seed ∷ limits_text ∷ scene_text seed events ∷ []) }
{
    let mut texts = Vec::new(alloc);
    texts.push(make_program(alloc, seed)?)?;
    texts.push(make_limits(alloc)?)?;
    texts.push(make_scene(alloc, seed, events)?)?;
    Ok(texts)
}

// The tally of the log of the network. A log that has more bytes than 64 bits can number counts as out of memory.
fn tallied<V: Watch>(alloc: Global, ready: Ready, watch: &mut V) -> Result<Tally, Refusal>
    requires { ReadyKeeps ready }
    ensures log { IfOk result (λ tally. tally.bytes ≡ log (network_of (ready_view ready))) }
    ensures memory { IfErr result (λ r. r ≡ refusal.Memory) }
    ensures shown { Shown (λ o. o ≡ Ok (sights_of (ready_view ready))) (V.seen watch.old) (V.seen watch.new) result }
{
    let mut tally = Tally::new();
    match run_network(alloc, ready, &mut tally, watch) {
        Ok(()) => Ok(tally),
        Err(refusal) => {
            drop(refusal);
            Err(Refusal::Memory)
        }
    }
}
