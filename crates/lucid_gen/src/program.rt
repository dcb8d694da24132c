// The program of a seed, line by line.
ghost use Rattle.std.specs.Prelude.{◌≡◌, ◌++◌, IfOk, OnOk, map, string_bytes};
ghost use Rattle.std.specs.List.{concat, range_with_len};
ghost use Rattle.lucid_gen.specs.Draws.{Writes};
ghost use Rattle.lucid_gen.specs.Program as spec;

use crate::choices::{Call, Generate, draw_call, draw_generate, draw_size};
use crate::numbers::Numbers;
use lucid_base::Memory;
use std::alloc::Global;

/// The text of the program of this seed (`program_text`), or Memory.
pub fn make_program(alloc: Global, seed: u64) -> Result<Vec<u8>, Memory>
    ensures { IfOk result (λ text. text.items ≡ spec.program_text seed) }
{
    let mut numbers = Numbers::new(seed);
    let mut text = String::new(alloc);
    write_arrays(&mut text, &mut numbers)?;
    writeln!(
        text,
        "memop plus(int stored, int x) {{ return stored + x; }}"
    )?;
    write_events(&mut text)?;
    write_handlers(&mut text, &mut numbers)?;
    Ok(text.into_bytes())
}

fn write_arrays(text: &mut String, numbers: &mut Numbers) -> Result<(), Memory>
    ensures { OnOk result (Writes (spec.eight spec.array) numbers.old.state (string_bytes text.old) numbers.new.state (string_bytes text.new)) }
{
    for j in 0..8 {
        write_array(text, j, draw_size(numbers))?;
    }
    Ok(())
}

fn write_array(text: &mut String, j: u64, size: u64) -> Result<(), Memory>
    ensures { OnOk result (string_bytes text.new ≡ string_bytes text.old ++ spec.array_line j size) }
{
    writeln!(text, "global Array.t<<32>> a{j} = Array.create({size});")?;
    Ok(())
}

fn write_events(text: &mut String) -> Result<(), Memory>
    ensures { OnOk result (string_bytes text.new ≡ string_bytes text.old ++ concat (map spec.event_line (range_with_len 0 8))) }
{
    for j in 0..8 {
        write_event(text, j)?;
    }
    Ok(())
}

fn write_event(text: &mut String, j: u64) -> Result<(), Memory>
    ensures { OnOk result (string_bytes text.new ≡ string_bytes text.old ++ spec.event_line j) }
{
    writeln!(text, "event e{j}(int i, int v);")?;
    Ok(())
}

fn write_handlers(text: &mut String, numbers: &mut Numbers) -> Result<(), Memory>
    ensures { OnOk result (Writes (spec.eight spec.handler) numbers.old.state (string_bytes text.old) numbers.new.state (string_bytes text.new)) }
{
    for j in 0..8 {
        write_handler(text, numbers, j)?;
    }
    Ok(())
}

fn write_handler(text: &mut String, numbers: &mut Numbers, j: u64) -> Result<(), Memory>
    ensures { OnOk result (Writes (spec.handler j) numbers.old.state (string_bytes text.old) numbers.new.state (string_bytes text.new)) }
{
    writeln!(text, "handle e{j}(int i, int v) {{")?;
    write_steps(text, numbers)?;
    write_generate(text, draw_generate(numbers))?;
    writeln!(text, "}}")?;
    Ok(())
}

fn write_steps(text: &mut String, numbers: &mut Numbers) -> Result<(), Memory>
    ensures { OnOk result (Writes (spec.eight spec.step) numbers.old.state (string_bytes text.old) numbers.new.state (string_bytes text.new)) }
{
    for q in 0..8 {
        write_call(text, q, draw_call(numbers))?;
    }
    Ok(())
}

fn write_call(text: &mut String, q: u64, call: Call) -> Result<(), Memory>
    ensures { OnOk result (string_bytes text.new ≡ string_bytes text.old ++ spec.call_line q call) }
{
    match call {
        Call::Nothing => {}
        Call::Get => writeln!(text, "  v = Array.getm(a{q}, i, plus, v);")?,
        Call::Set => writeln!(text, "  Array.setm(a{q}, i, plus, v);")?,
        Call::Update { above } => writeln!(
            text,
            "  if (v > {above}) {{ v = Array.update(a{q}, i, plus, 1, plus, v); }}"
        )?,
    }
    Ok(())
}

fn write_generate(text: &mut String, generate: Generate) -> Result<(), Memory>
    ensures { OnOk result (string_bytes text.new ≡ string_bytes text.old ++ spec.generate_line generate) }
{
    let Generate {
        crosses,
        event,
        delay,
    } = generate;
    if crosses {
        writeln!(
            text,
            "  generate Event.locate(Event.delay(e{event}(i + 1, v), {delay}), SELF ^ 1);"
        )?;
    } else {
        writeln!(text, "  generate Event.delay(e{event}(i + 1, v), {delay});")?;
    }
    Ok(())
}
