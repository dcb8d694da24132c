// The top call: all that the program does, over words, files, two sinks, passes and a watch.
ghost use Rattle.std.specs.Prelude.{◌≡◌, ◌≢◌, ◌⊎◌, ◌+◌, ◌≤◌, ℕ, List, [], ◌∷◌, Option, None, Some, Ok, Err, length, map};
ghost use Rattle.std.specs.Io.KnownBytes.{Appends, Keeps};
ghost use Rattle.lucid_io.specs.Contents.{SameHeld};
ghost use Rattle.lucid_io.specs.Counts.{Rose, SameCounts, OthersKept};
ghost use Rattle.lucid_io.specs.History.{AgreesWithAll};
ghost use Rattle.lucid_io.specs.Puts.{PutsAll, PutsPart};
ghost use Rattle.lucid_top.specs.Answer.{Answers, AnswersTo, CanStop, IsTold, given};
ghost use Rattle.lucid_top.specs.Call.{Done, Ended, IsNamed, Names, Unfailed, asked, bytes_of, name_of, named_files};
ghost use Rattle.lucid_pipe.specs.Sights.{ShowsAll};
ghost use Rattle.lucid_top.specs.Headline.{Accepted, AuditAccepts, FirstFitPlaces, Hold, Holds, NoneFailed, OutOfMemory, Three, Wrote, drive, network_log, read_three};
ghost use Rattle.lucid_top.specs.Headline.{bench_texts, network_sights, placed_by, run_pipe, run_placed, run_whole, snap, snapshot_log, steps_log, steps_sights, whole_network};
ghost use Rattle.lucid_top_pipes.specs.Watching.{ToldBefore};
ghost use Rattle.lucid_top.specs.Passes.{SamePasses};
ghost use Rattle.lucid_top.specs.Room.{CallLacksRoom};
ghost use Rattle.lucid_top_fit.specs.Passes.{KeepNodes, passes_view};
ghost use Rattle.lucid_top_words.specs.Command.{command_of};
ghost use Rattle.lucid_top_words.specs.Files.{BegunInOrder, most_reads, read_whole};
ghost use Rattle.lucid_top_words.specs.Outcome.{Outcome, SameRefusal, outcome_status};
ghost use Rattle.lucid_top_words.specs.Refusal.{line_of, status_of};
ghost use Rattle.lucid_top_words.specs.Status.{IsDetermined};
ghost use Rattle.lucid_top_words.specs.Views.{files_view, sink_view};
ghost use Rattle.lucid_top_words.specs.Words.{number_of};
ghost use Rattle.lucid_top_words.specs.Writing.{PutsSome, Said};

use crate::commands::perform;
use crate::room::commands_lack_room;
use lucid_io::{Files, Sink};
use lucid_pass::Pass;
use lucid_pipe::Watch;
use lucid_top_words::{Command, NamedFile, NoFit, Refusal, Status, read_files, refuse};
use std::alloc::Global;

/// Runs the command of the words on these files: writes the answer to `out`, or the reason why there is none to `err`.
pub fn lucid<F: Files, W: Sink, E: Sink, V: Watch>(
    alloc: Global,
    words: &[String],
    files: &mut F,
    out: &mut W,
    err: &mut E,
    passes: &mut Vec<Box<dyn Pass>>,
    watch: &mut V,
) -> Status
    // all of it, by how the call ended
    ensures ended { let files' = files_view F.held F.given F.heard F.faults in let out' = sink_view W.written W.faults in
        let passes' = passes_view called gives count in let err' = sink_view E.written E.faults in
        Ended (record {
          words = bytes_of words.now;
          files = files' files.old;
          files' = files' files.new;
          out = out' out.old;
          out' = out' out.new;
          passes = passes' passes.old.items;
          passes' = passes' passes.new.items;
          seen = V.seen watch.old;
          seen' = V.seen watch.new;
        }) (err' err.old) (err' err.new) result }

    // the specified contents agree with the history of the reads, if they did before
    ensures agrees { AgreesWithAll (F.held files.old) (F.heard files.old) → AgreesWithAll (F.held files.old) (F.heard files.new) }

    // From here on `contents` are any contents of names that agree with the history of the reads. So they are those that are specified; and
    // if none are, as of the files of the machine, those that have each text that a read returned to its end.
    // The headline: an accepted program that first fit places runs on pipelines with the log of handlers that run whole, one event after
    // another.
    ensures whole { (contents : List ℕ → Option (List ℕ)) → AgreesWithAll contents (F.heard files.new) →
        (names texts : Three) → Hold contents names texts → (a : Accepted texts) →
        NoneFailed (F.faults files.old) (F.faults files.new) names → ¬ Rose (W.faults out.old) (W.faults out.new) →
        bytes_of words.now ≡ run_whole names → Wrote W.written W.faults out.old out.new result (network_log a) }
    ensures pipe { (contents : List ℕ → Option (List ℕ)) → AgreesWithAll contents (F.heard files.new) →
        (names texts : Three) → Hold contents names texts → (a : Accepted texts) →
        FirstFitPlaces (map (λ p. (gives p).makes) passes.old.items) a →
        NoneFailed (F.faults files.old) (F.faults files.new) names → ¬ Rose (W.faults out.old) (W.faults out.new) →
        bytes_of words.now ≡ run_pipe names → Wrote W.written W.faults out.old out.new result (network_log a) }
    // Safety on its own, with no premise on texts or layout: if `run pipe` ends with status 0, it read three accepted texts whole, and wrote
    // exactly the log of their handlers.
    ensures safe { (names : Three) → bytes_of words.now ≡ run_pipe names → result ≡ Status.Ok →
        (texts : Three) × (F.heard files.new ≡ read_three names texts (F.heard files.old)) × (a : Accepted texts) ×
        PutsAll W.written W.faults out.old out.new (network_log a) }
    // the headline by word, for files of which each word gave a text of its own
    ensures pipe_by_word { (names texts : Three) → F.heard files.new ≡ read_three names texts (F.heard files.old) → (a : Accepted texts) →
        FirstFitPlaces (map (λ p. (gives p).makes) passes.old.items) a → ¬ Rose (W.faults out.old) (W.faults out.new) →
        bytes_of words.now ≡ run_pipe names → Wrote W.written W.faults out.old out.new result (network_log a) }
    ensures by_word { (texts : List (List ℕ)) → length texts ≡ length (named_files words.now) →
        F.heard files.new ≡ read_whole (bytes_of words.now) (named_files words.now) texts (F.heard files.old) → ¬ Rose (W.faults out.old) (W.faults out.new) →
        let q = asked words.now (F.held files.old) (passes_view called gives count passes.old.items) in
        (text : List ℕ) → AnswersTo (command_of (bytes_of words.now)) (given q texts) (Ok text) →
        Wrote W.written W.faults out.old out.new result text }
    // the same for any places that a file gives and the audit accepts; and the steps of a scenario on one pipeline
    ensures placed { (contents : List ℕ → Option (List ℕ)) → AgreesWithAll contents (F.heard files.new) →
        (names texts : Three) → Hold contents names texts →
        (placement text : List ℕ) → Holds contents placement text 8388608 → (a : Accepted texts) →
        AuditAccepts (map (λ p. (gives p).makes) passes.old.items) a text →
        NoneFailed (F.faults files.old) (F.faults files.new) names → ¬ Rose (F.faults files.old placement) (F.faults files.new placement) → ¬ Rose (W.faults out.old) (W.faults out.new) →
        bytes_of words.now ≡ run_placed names placement → Wrote W.written W.faults out.old out.new result (network_log a) }
    ensures drive { (contents : List ℕ → Option (List ℕ)) → AgreesWithAll contents (F.heard files.new) →
        (names texts : Three) → Hold contents names texts → (a : Accepted texts) →
        (f : FirstFitPlaces (map (λ p. (gives p).makes) passes.old.items) a) →
        NoneFailed (F.faults files.old) (F.faults files.new) names → ¬ Rose (W.faults out.old) (W.faults out.new) →
        bytes_of words.now ≡ drive names → Wrote W.written W.faults out.old out.new result (steps_log f) }
    // and a snapshot that is taken stage by stage after some steps has the cells of the handlers of all events that had entered
    ensures snapped { (contents : List ℕ → Option (List ℕ)) → AgreesWithAll contents (F.heard files.new) →
        (names texts : Three) → Hold contents names texts → (a : Accepted texts) →
        (f : FirstFitPlaces (map (λ p. (gives p).makes) passes.old.items) a) → (word : List ℕ) (steps : ℕ) → number_of word ≡ Some steps →
        NoneFailed (F.faults files.old) (F.faults files.new) names → ¬ Rose (W.faults out.old) (W.faults out.new) →
        bytes_of words.now ≡ snap names word → Wrote W.written W.faults out.old out.new result (snapshot_log f steps) }
    // and a watch is shown the pipes: after each tick the pipe of each switch
    ensures shown { (contents : List ℕ → Option (List ℕ)) → AgreesWithAll contents (F.heard files.new) →
        (names texts : Three) → Hold contents names texts → (a : Accepted texts) →
        (f : FirstFitPlaces (map (λ p. (gives p).makes) passes.old.items) a) → bytes_of words.now ≡ run_pipe names →
        result ≡ Status.Ok → ShowsAll (V.seen watch.old) (V.seen watch.new) (network_sights a (placed_by f)) }
    ensures shown_placed { (contents : List ℕ → Option (List ℕ)) → AgreesWithAll contents (F.heard files.new) →
        (names texts : Three) → Hold contents names texts →
        (placement text : List ℕ) → Holds contents placement text 8388608 → (a : Accepted texts) →
        (audit : AuditAccepts (map (λ p. (gives p).makes) passes.old.items) a text) → bytes_of words.now ≡ run_placed names placement →
        result ≡ Status.Ok → ShowsAll (V.seen watch.old) (V.seen watch.new) (network_sights a audit.placed) }
    ensures shown_bench { (seed n : ℕ) → command_of (bytes_of words.now) ≡ Some (Command.Bench seed n) → (a : Accepted (bench_texts seed n)) →
        (f : FirstFitPlaces (map (λ p. (gives p).makes) passes.old.items) a) →
        result ≡ Status.Ok → ShowsAll (V.seen watch.old) (V.seen watch.new) (network_sights a (placed_by f)) }
    // after each step of a drive, its pipe
    ensures shown_drive { (contents : List ℕ → Option (List ℕ)) → AgreesWithAll contents (F.heard files.new) →
        (names texts : Three) → Hold contents names texts → (a : Accepted texts) →
        (f : FirstFitPlaces (map (λ p. (gives p).makes) passes.old.items) a) → bytes_of words.now ≡ drive names →
        result ≡ Status.Ok → ShowsAll (V.seen watch.old) (V.seen watch.new) (steps_sights f) }

    // Words, files and passes determine the answer: the status, the bytes of `out`, the line of `err`.
    ensures status { (contents : List ℕ → Option (List ℕ)) → AgreesWithAll contents (F.heard files.new) →
        let q = asked words.now contents (passes_view called gives count passes.old.items) in
        IsDetermined result → (o : Outcome) → Answers q o → result ≡ outcome_status o }
    ensures out { (contents : List ℕ → Option (List ℕ)) → AgreesWithAll contents (F.heard files.new) →
        let q = asked words.now contents (passes_view called gives count passes.old.items) in
        result ≡ Status.Ok → (text : List ℕ) → Answers q (Ok text) → PutsAll W.written W.faults out.old out.new text }
    ensures err { (contents : List ℕ → Option (List ℕ)) → AgreesWithAll contents (F.heard files.new) →
        let q = asked words.now contents (passes_view called gives count passes.old.items) in
        IsDetermined result → (r : Refusal) → Answers q (Err r) → (s : Refusal) × Answers q (Err s) × SameRefusal r s ×
        Said E.written E.faults err.old err.new (line_of (bytes_of words.now) s) }
    ensures answered { (contents : List ℕ → Option (List ℕ)) → AgreesWithAll contents (F.heard files.new) →
        let q = asked words.now contents (passes_view called gives count passes.old.items) in
        IsDetermined result → IsTold q → (o : Outcome) × Answers q o }

    // Where there is a text to write and no count rose, it is written, unless memory ran out.
    ensures complete { (contents : List ℕ → Option (List ℕ)) → AgreesWithAll contents (F.heard files.new) →
        let q = asked words.now contents (passes_view called gives count passes.old.items) in
        (text : List ℕ) → Answers q (Ok text) → Unfailed F.faults files.old files.new words.now →
        ¬ Rose (W.faults out.old) (W.faults out.new) → (result ≡ Status.Ok) ⊎ (result ≡ Status.Memory) }

    // when each fault comes; a file that is reported is one that the words name
    ensures read_fault { result ≡ Status.ReadFault → (file : NamedFile) × Names words.now file ×
        Rose (F.faults files.old (name_of words.now file)) (F.faults files.new (name_of words.now file)) ×
        Said E.written E.faults err.old err.new (line_of (bytes_of words.now) (Refusal.ReadFault file.word)) }
    ensures too_long { result ≡ Status.TooLong → (file : NamedFile) × Names words.now file × (F.given files.new ≡ file.limit + 1) ×
        Said E.written E.faults err.old err.new (line_of (bytes_of words.now) (Refusal.TooLong file.word)) }
    ensures gave_more { (file : NamedFile) → named_files words.now ≡ file ∷ [] → F.given files.new ≡ file.limit + 1 →
        (result ≡ Status.TooLong) ⊎ (result ≡ Status.Memory) }
    ensures write_fault { result ≡ Status.WriteFault → Rose (W.faults out.old) (W.faults out.new) }

    // the written bytes: at a write fault a proper prefix, when out of memory a prefix, at every other refusal nothing
    ensures cut { (contents : List ℕ → Option (List ℕ)) → AgreesWithAll contents (F.heard files.new) →
        let q = asked words.now contents (passes_view called gives count passes.old.items) in
        result ≡ Status.WriteFault → (text : List ℕ) → Answers q (Ok text) → PutsPart W.written W.faults out.old out.new text }
    ensures memory { (contents : List ℕ → Option (List ℕ)) → AgreesWithAll contents (F.heard files.new) →
        let q = asked words.now contents (passes_view called gives count passes.old.items) in
        result ≡ Status.Memory → (text : List ℕ) → Answers q (Ok text) → PutsSome W.written W.faults out.old out.new text }
    // if memory ran out in a run on pipelines: nothing, or the whole log of the ticks before the one at which an event had to wait
    ensures memory_pipe { (contents : List ℕ → Option (List ℕ)) → AgreesWithAll contents (F.heard files.new) →
        (names texts : Three) → Hold contents names texts → (a : Accepted texts) →
        FirstFitPlaces (map (λ p. (gives p).makes) passes.old.items) a → bytes_of words.now ≡ run_pipe names →
        result ≡ Status.Memory → OutOfMemory W.written W.faults out.old out.new (whole_network a) }
    ensures memory_placed { (contents : List ℕ → Option (List ℕ)) → AgreesWithAll contents (F.heard files.new) →
        (names texts : Three) → Hold contents names texts →
        (placement text : List ℕ) → Holds contents placement text 8388608 → (a : Accepted texts) →
        AuditAccepts (map (λ p. (gives p).makes) passes.old.items) a text → bytes_of words.now ≡ run_placed names placement →
        result ≡ Status.Memory → OutOfMemory W.written W.faults out.old out.new (whole_network a) }
    ensures silent { (contents : List ℕ → Option (List ℕ)) → AgreesWithAll contents (F.heard files.new) →
        let q = asked words.now contents (passes_view called gives count passes.old.items) in
        result ≢ Status.Ok → result ≢ Status.WriteFault → (result ≡ Status.Memory → ¬ CanStop q) →
        Keeps (W.written out.old) (W.written out.new) }
    ensures grows { (text : List ℕ) × Appends (W.written out.old) (W.written out.new) text }
    ensures said { result ≢ Status.Ok → (r : Refusal) × (status_of r ≡ result) ×
        Said E.written E.faults err.old err.new (line_of (bytes_of words.now) r) }
    // if the passes keep each node after its reads, a node is refused only if no place has room for it
    ensures room { (contents : List ℕ → Option (List ℕ)) → AgreesWithAll contents (F.heard files.new) →
        let q = asked words.now contents (passes_view called gives count passes.old.items) in
        KeepNodes (map gives passes.old.items) → result ≡ Status.NoFit → (r : Refusal) × (status_of r ≡ result) ×
        Said E.written E.faults err.old err.new (line_of (bytes_of words.now) r) ×
        ((node : ℕ) → r ≡ Refusal.NoFit (NoFit.Node node) → CallLacksRoom q node) }
    ensures unsaid { result ≡ Status.Ok → Keeps (E.written err.old) (E.written err.new) }

    // the passes are the same as before, each with its name and its meaning; the sights of a watch are specified after the call only if
    // they were before
    ensures passes { let seen = passes_view called gives count in SamePasses (seen passes.old.items) (seen passes.new.items) }
    ensures told { ToldBefore (V.seen watch.old) (V.seen watch.new) }

    // the unchanged parts: the files, if the words name none; no file that the words don't name is ever begun; those that they name are
    // begun in word order, each once, and read at most twice more than their limits have bytes
    ensures unread { named_files words.now ≡ [] → files.new ≡ files.old }
    ensures tries { (name : List ℕ) → F.tried files.new name → F.tried files.old name ⊎ IsNamed words.now name }
    ensures begins { BegunInOrder (bytes_of words.now) (named_files words.now) (F.heard files.old) (F.heard files.new) }
    ensures reads { F.reads files.new ≤ F.reads files.old + most_reads (named_files words.now) }
    ensures held { SameHeld (F.held files.old) (F.held files.new) }
    ensures quiet { result ≢ Status.ReadFault → SameCounts (F.faults files.old) (F.faults files.new) }
    ensures others { OthersKept (IsNamed words.now) (F.faults files.old) (F.faults files.new) }
{
    commands_lack_room();
    call(alloc, words, files, out, err, passes, watch)
}

fn call<F: Files, W: Sink, E: Sink, V: Watch>(
    alloc: Global,
    words: &[String],
    files: &mut F,
    out: &mut W,
    err: &mut E,
    passes: &mut Vec<Box<dyn Pass>>,
    watch: &mut V,
) -> Status
    ensures ended { let files' = files_view F.held F.given F.heard F.faults in let out' = sink_view W.written W.faults in
        let passes' = passes_view called gives count in let err' = sink_view E.written E.faults in
        Ended (record {
          words = bytes_of words.now;
          files = files' files.old;
          files' = files' files.new;
          out = out' out.old;
          out' = out' out.new;
          passes = passes' passes.old.items;
          passes' = passes' passes.new.items;
          seen = V.seen watch.old;
          seen' = V.seen watch.new;
        }) (err' err.old) (err' err.new) result }
    ensures unread { named_files words.now ≡ [] → files.new ≡ files.old }
    ensures tries { (name : List ℕ) → F.tried files.new name → F.tried files.old name ⊎ IsNamed words.now name }
    ensures reads { F.reads files.new ≤ F.reads files.old + most_reads (named_files words.now) }
    ensures others { OthersKept (IsNamed words.now) (F.faults files.old) (F.faults files.new) }
{
    match work(alloc, words, files, out, passes, watch) {
        Ok(()) => Status::Ok,
        Err(refusal) => refuse(err, words, refusal),
    }
}

fn work<F: Files, W: Sink, V: Watch>(
    alloc: Global,
    words: &[String],
    files: &mut F,
    out: &mut W,
    passes: &mut Vec<Box<dyn Pass>>,
    watch: &mut V,
) -> Result<(), Refusal>
    ensures done { let files' = files_view F.held F.given F.heard F.faults in let out' = sink_view W.written W.faults in
        let passes' = passes_view called gives count in
        Done (record {
          words = bytes_of words.now;
          files = files' files.old;
          files' = files' files.new;
          out = out' out.old;
          out' = out' out.new;
          passes = passes' passes.old.items;
          passes' = passes' passes.new.items;
          seen = V.seen watch.old;
          seen' = V.seen watch.new;
        }) result }
    ensures unread { named_files words.now ≡ [] → files.new ≡ files.old }
    ensures tries { (name : List ℕ) → F.tried files.new name → F.tried files.old name ⊎ IsNamed words.now name }
    ensures reads { F.reads files.new ≤ F.reads files.old + most_reads (named_files words.now) }
    ensures others { OthersKept (IsNamed words.now) (F.faults files.old) (F.faults files.new) }
{
    let Some(command) = Command::read(words) else {
        return Err(Refusal::Usage);
    };
    match read_files(alloc, files, words, command.files()) {
        Ok(texts) => perform(alloc, command, words, texts.as_slice(), out, passes, watch),
        Err(refusal) => {
            drop(command);
            Err(refusal)
        }
    }
}
