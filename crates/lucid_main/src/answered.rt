// The call that the program makes: `lucid` with the four passes, and a watch that sees nothing.
ghost use Rattle.std.specs.Prelude.{◌≡◌, [], ◌∷◌, IfOk, OnErr, codes};
ghost use Rattle.lucid_main.specs.Answered.{Called, WithOurs, copies_pass, dead_pass, direct_pass, fold_pass};
ghost use Rattle.lucid_top.specs.Call.{bytes_of};
ghost use Rattle.lucid_top_words.specs.Views.{files_view, sink_view};

use lucid_base::Memory;
use lucid_io::{Files, Sink};
use lucid_pass::{Dead, Pass};
use lucid_pass_rewrites::{Copies, Direct, Fold};
use lucid_pipe::NoWatch;
use lucid_top::{Status, lucid};
use lucid_top_words::{Refusal, refuse};
use std::alloc::Global;

/// Runs the command of the words with the four passes. Reports out of memory if there is none for the passes.
pub(crate) fn answered<F: Files, W: Sink, E: Sink>(
    alloc: Global,
    words: &[String],
    files: &mut F,
    out: &mut W,
    err: &mut E,
) -> Status
    ensures { let files' = files_view F.held F.given F.heard F.faults in let out' = sink_view W.written W.faults in let err' = sink_view E.written E.faults in
        Called (bytes_of words.now) (files' files.old) (files' files.new) (out' out.old) (out' out.new) (err' err.old) (err' err.new) result }
{
    match called(alloc, words, files, out, err) {
        Ok(status) => status,
        Err(_) => refuse(err, words, Refusal::Memory),
    }
}

/// Calls `lucid` with the passes, each in a box of its own.
fn called<F: Files, W: Sink, E: Sink>(
    alloc: Global,
    words: &[String],
    files: &mut F,
    out: &mut W,
    err: &mut E,
) -> Result<Status, Memory>
    ensures ended { let files' = files_view F.held F.given F.heard F.faults in let out' = sink_view W.written W.faults in let err' = sink_view E.written E.faults in
        IfOk result (λ s. WithOurs (bytes_of words.now) (files' files.old) (files' files.new) (out' out.old) (out' out.new) (err' err.old) (err' err.new) s) }
    ensures files_stay { OnErr result (files.new ≡ files.old) }
    ensures out_stays { OnErr result (out.new ≡ out.old) }
    ensures err_stays { OnErr result (err.new ≡ err.old) }
{
    let fold = Box::new(alloc, Fold::new())?;
    let copies = Box::new(alloc, Copies::new())?;
    let dead = Box::new(alloc, Dead::new())?;
    let direct = Box::new(alloc, Direct::new())?;
    over(alloc, words, files, out, err, fold, copies, dead, direct)
}

/// Calls `lucid` with these boxes, which hold the passes in their order.
fn over<F: Files, W: Sink, E: Sink>(
    alloc: Global,
    words: &[String],
    files: &mut F,
    out: &mut W,
    err: &mut E,
    first: Box<dyn Pass>,
    second: Box<dyn Pass>,
    third: Box<dyn Pass>,
    last: Box<dyn Pass>,
) -> Result<Status, Memory>
    requires fold { called first ≡ codes "fold" }
    requires copies { called second ≡ codes "copies" }
    requires dead { called third ≡ codes "dead" }
    requires direct { called last ≡ codes "direct" }
    requires folds { gives first ≡ fold_pass }
    requires replaces { gives second ≡ copies_pass }
    requires removes { gives third ≡ dead_pass }
    requires directs { gives last ≡ direct_pass }
    ensures ended { let files' = files_view F.held F.given F.heard F.faults in let out' = sink_view W.written W.faults in let err' = sink_view E.written E.faults in
        IfOk result (λ s. WithOurs (bytes_of words.now) (files' files.old) (files' files.new) (out' out.old) (out' out.new) (err' err.old) (err' err.new) s) }
    ensures files_stay { OnErr result (files.new ≡ files.old) }
    ensures out_stays { OnErr result (out.new ≡ out.old) }
    ensures err_stays { OnErr result (err.new ≡ err.old) }
{
    let mut passes = list_of(alloc, first, second, third, last)?;
    Ok(lucid(alloc, words, files, out, err, &mut passes, &mut NoWatch))
}

/// Returns the list of these boxes.
fn list_of(
    alloc: Global,
    first: Box<dyn Pass>,
    second: Box<dyn Pass>,
    third: Box<dyn Pass>,
    last: Box<dyn Pass>,
) -> Result<Vec<Box<dyn Pass>>, Memory>
    ensures { IfOk result (λ passes. passes.items ≡ first ∷ second ∷ third ∷ last ∷ []) }
{
    let mut passes = Vec::new(alloc);
    passes.push(first)?;
    passes.push(second)?;
    passes.push(third)?;
    passes.push(last)?;
    Ok(passes)
}
