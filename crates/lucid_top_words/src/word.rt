// A word of a call, by place.
ghost use Rattle.std.specs.Prelude.{◌≡◌, map, string_bytes};
ghost use Rattle.lucid_top_words.specs.Words.{word_at};

/// Returns the word of this number, from 0; empty if there is no such word (`word_at`).
pub fn word_bytes(words: &[String], at: usize) -> &[u8]
    ensures { result.now ≡ word_at (map string_bytes words.now) at }
{
    match words.get(at) {
        Some(word) => word.as_str().as_bytes(),
        None => b"",
    }
}
