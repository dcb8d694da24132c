// All that the program does, over the words that the machine gave, any files and any two sinks; and the same at the machine's types.
ghost use Rattle.std.specs.Prelude.{◌≡◌, List, ℕ, Some, IfErr, IfOk, drop};
ghost use Rattle.std.specs.Process.{exit_status};
ghost use Rattle.std.specs.Vec.Iter.{into_iter_items};
ghost use Rattle.std.specs.IoError.{error_kind};
ghost use Rattle.lucid_io.specs.Counts.{Rose};
ghost use Rattle.lucid_main.specs.Answered.{Called, Finished, NoWords, our_makes};
ghost use Rattle.lucid_top.specs.Call.{bytes_of};
ghost use Rattle.lucid_top.specs.Headline.{Accepted, FirstFitPlaces, Three, network_log, read_three, run_pipe};
ghost use Rattle.lucid_top_words.specs.Status.{code_of};
ghost use Rattle.lucid_top_words.specs.Views.{files_view, sink_view};

use crate::answered::answered;
use crate::words::{classify, take_words};
use lucid_io::{Files, RealDisk, RealFiles, RealOut, RealStream, Sink};
use lucid_top::Status;
use lucid_top_words::refuse;
use std::alloc::Global;
use std::env::Args;
use std::io::{Stderr, Stdout};
use std::process::ExitCode;
use std::{fs, io};

/// Runs the program on these words, of which the first is its name, and returns its exit code. The commands run the four passes in their
/// order. If the machine gave no words, reports why and does nothing else.
pub(crate) fn program<F: Files, W: Sink, E: Sink>(
    alloc: Global,
    given: io::Result<Args>,
    files: &mut F,
    out: &mut W,
    err: &mut E,
) -> ExitCode
    ensures words { IfOk given (λ args. let files' = files_view F.held F.given F.heard F.faults in let out' = sink_view W.written W.faults in
        let err' = sink_view E.written E.faults in
        (s : Status) × (exit_status result ≡ code_of s) ×
        Called (bytes_of (drop 1 (into_iter_items args))) (files' files.old) (files' files.new) (out' out.old) (out' out.new) (err' err.old) (err' err.new) s) }
    ensures none { IfErr given (λ e. (s : Status) × (exit_status result ≡ code_of s) ×
        NoWords E.written E.faults (error_kind e) files.old files.new out.old out.new err.old err.new s) }
    // the headline, in terms of what was read and what was written
    ensures pipe { IfOk given (λ args. (names texts : Three) → bytes_of (drop 1 (into_iter_items args)) ≡ run_pipe names →
        F.heard files.new ≡ read_three names texts (F.heard files.old) → (a : Accepted texts) → FirstFitPlaces our_makes a →
        ¬ Rose (W.faults out.old) (W.faults out.new) →
        Finished W.written W.faults out.old out.new (exit_status result) (network_log a)) }
{
    exit_code(run(alloc, given, files, out, err))
}

/// Runs the program on the machine's disk and streams. The types keep the streams apart.
pub(crate) fn on_machine<R: fs::Files + Drop>(
    alloc: Global,
    given: io::Result<Args>,
    files: &mut RealFiles<RealDisk<R>>,
    out: &mut RealOut<RealStream<Stdout>>,
    err: &mut RealOut<RealStream<Stderr>>,
) -> ExitCode
    // the bytes that a stream accepted are recorded, so the equation below is one of bytes
    ensures recorded { ((bytes : List ℕ) × (⟦<RealOut<RealStream<Stdout>> as Sink>⟧.written out.old ≡ Some bytes)) ×
        ((bytes : List ℕ) × (⟦<RealOut<RealStream<Stdout>> as Sink>⟧.written out.new ≡ Some bytes)) }
    // whatever bytes the disk gave for the three files, the bytes that were written are those that the definition gives for them
    ensures pipe { IfOk given (λ args. (names texts : Three) → bytes_of (drop 1 (into_iter_items args)) ≡ run_pipe names →
        ⟦<RealFiles<RealDisk<R>> as Files>⟧.heard files.new ≡ read_three names texts (⟦<RealFiles<RealDisk<R>> as Files>⟧.heard files.old) →
        (a : Accepted texts) → FirstFitPlaces our_makes a →
        ¬ Rose (⟦<RealOut<RealStream<Stdout>> as Sink>⟧.faults out.old) (⟦<RealOut<RealStream<Stdout>> as Sink>⟧.faults out.new) →
        Finished ⟦<RealOut<RealStream<Stdout>> as Sink>⟧.written ⟦<RealOut<RealStream<Stdout>> as Sink>⟧.faults out.old out.new (exit_status result) (network_log a)) }
{
    program(alloc, given, files, out, err)
}

// Runs the command of these words, or refuses if the machine gave none.
fn run<F: Files, W: Sink, E: Sink>(
    alloc: Global,
    given: io::Result<Args>,
    files: &mut F,
    out: &mut W,
    err: &mut E,
) -> Status
    ensures words { IfOk given (λ args. let files' = files_view F.held F.given F.heard F.faults in let out' = sink_view W.written W.faults in
        let err' = sink_view E.written E.faults in
        Called (bytes_of (drop 1 (into_iter_items args))) (files' files.old) (files' files.new) (out' out.old) (out' out.new) (err' err.old) (err' err.new) result) }
    ensures none { IfErr given (λ e. NoWords E.written E.faults (error_kind e) files.old files.new out.old out.new err.old err.new result) }
{
    match given {
        Ok(given) => run_words(alloc, given, files, out, err),
        Err(error) => refuse(err, &[], classify(error.kind())),
    }
}

// Runs the command of these words without the first.
fn run_words<F: Files, W: Sink, E: Sink>(
    alloc: Global,
    given: Args,
    files: &mut F,
    out: &mut W,
    err: &mut E,
) -> Status
    ensures { let files' = files_view F.held F.given F.heard F.faults in let out' = sink_view W.written W.faults in let err' = sink_view E.written E.faults in
        Called (bytes_of (drop 1 (into_iter_items given))) (files' files.old) (files' files.new) (out' out.old) (out' out.new) (err' err.old) (err' err.new) result }
{
    match take_words(alloc, given) {
        Ok(words) => answered(alloc, words.as_slice(), files, out, err),
        Err(refusal) => refuse(err, &[], refusal),
    }
}

/// Returns the exit code of a status.
fn exit_code(status: Status) -> ExitCode
    ensures { exit_status result ≡ code_of status }
{
    ExitCode::from(status.code())
}
