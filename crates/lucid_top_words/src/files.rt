// The files that the words name, read in word order. All that is said of statuses 2 and 3 comes from here.
ghost use Rattle.std.specs.Prelude.{◌≡◌, ◌⊎◌, ◌<◌, ◌≤◌, ◌+◌, ◌^◌, ℕ, List, [], All, OnOk, IfErr, length, map, string_bytes};
ghost use Rattle.lucid_io.specs.Counts.{OthersKept};
ghost use Rattle.lucid_top_words.specs.Files.{FilesRead, IsNameIn, ReadsOne, ReadsNone, TriesOnly, most_reads, texts_of, texts_in};
ghost use Rattle.lucid_top_words.specs.Views.{files_view};
ghost use Rattle.lucid_top_words.specs.Words.{word_at};

use crate::command::NamedFile;
use crate::refusal::Refusal;
use lucid_io::{Files, read_all};
use std::alloc::Global;

/// Reads the named files, each whole within its limit, up to the first that can't be taken. No file of another name is
/// begun, and no file twice.
pub fn read_files<F: Files>(
    alloc: Global,
    files: &mut F,
    words: &[String],
    named: &[NamedFile],
) -> Result<Vec<Vec<u8>>, Refusal>
    requires there { All (λ file. file.word < length words.now) named.now }
    requires small { All (λ file. file.limit < 2 ^ 32) named.now }
    ensures reads { let seen = files_view F.held F.given F.heard F.faults in
        FilesRead (map string_bytes words.now) (seen files.old) (seen files.new) named.now (texts_of result) }
    ensures tries { TriesOnly (map string_bytes words.now) named.now (F.tried files.old) (F.tried files.new) }
    ensures others { OthersKept (IsNameIn (map string_bytes words.now) named.now) (F.faults files.old) (F.faults files.new) }
    ensures calls { F.reads files.new ≤ F.reads files.old + most_reads named.now }
    ensures none { named.now ≡ [] → files.new ≡ files.old }
{
    let mut texts = Vec::new(alloc);
    for file in named {
        read_next(alloc, files, words, file, &mut texts)?;
    }
    Ok(texts)
}

// Reads one named file, and adds its content to the texts.
fn read_next<F: Files>(
    alloc: Global,
    files: &mut F,
    words: &[String],
    file: &NamedFile,
    texts: &mut Vec<Vec<u8>>,
) -> Result<(), Refusal>
    requires there { file.now.word < length words.now }
    requires small { file.now.limit < 2 ^ 32 }
    ensures whole { let seen = files_view F.held F.given F.heard F.faults in let before = texts_in texts.old.items in
        OnOk result (ReadsOne (map string_bytes words.now) (seen files.old) (seen files.new) file.now before (texts_in texts.new.items)) }
    ensures not { let seen = files_view F.held F.given F.heard F.faults in
        IfErr result (λ r. ReadsNone (map string_bytes words.now) (seen files.old) (seen files.new) file.now r) }
    ensures tries { (name : List ℕ) → F.tried files.new name → F.tried files.old name ⊎ (name ≡ word_at (map string_bytes words.now) file.now.word) }
    ensures others { OthersKept (λ other. other ≡ word_at (map string_bytes words.now) file.now.word) (F.faults files.old) (F.faults files.new) }
    ensures calls { F.reads files.new ≤ F.reads files.old + file.now.limit + 2 }
{
    match read_all(alloc, files, words[file.word].as_str(), file.limit) {
        Ok(text) => {
            if texts.push(text).is_err() {
                return Err(Refusal::Memory);
            }
            Ok(())
        }
        Err(take) => Err(Refusal::of_take(file.word, take)),
    }
}
