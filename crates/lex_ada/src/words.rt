// Which runs of letters are words.
ghost use Rattle.std.specs.Prelude.{◌≡◌, ◌++◌, bytes_eq, map};
ghost use Rattle.std.specs.Char.{to_ascii_lowercase};
ghost use Rattle.ada_tree.specs.Tables.{first_value};
ghost use Rattle.ada_tree.specs.declared.word.TheConstants.{WORDS};
ghost use Rattle.ada_tree.specs.Words.{reserved_words, note_words, word_of};
ghost use Rattle.ada_tree.specs.Texts.{is_word_among};

use ada_tree::{RESERVED, WORDS, Word};

/// Whether the letters are those of the text, whichever case they have: the text is in lower case.
pub fn is_spelled(text: &str, bytes: &[u8]) -> bool
    ensures { result ≡ bytes_eq text.now (map to_ascii_lowercase bytes.now) }
{
    let text = text.as_bytes();
    if text.len() != bytes.len() {
        return false;
    }
    for (letter, byte) in text.iter().zip(bytes) {
        if *letter != byte.to_ascii_lowercase() {
            return false;
        }
    }
    true
}

// The word that these letters are in this table.
fn word_in(rows: &[(Word, &str)], bytes: &[u8]) -> Option<Word>
    ensures { result ≡ first_value (λ row. row.0) (λ row. bytes_eq row.1.now (map to_ascii_lowercase bytes.now)) rows.now }
{
    for (word, text) in rows {
        if is_spelled(text, bytes) {
            return Some(*word);
        }
    }
    None
}

/// Whether these letters are a reserved word of Ada 83 (section 2.9 of its manual).
pub fn is_reserved(bytes: &[u8]) -> bool
    ensures { result ≡ is_word_among reserved_words bytes.now }
{
    word_in(&WORDS[..RESERVED], bytes).is_some()
}

/// Whether these letters are a word that annotations have beside the reserved ones.
pub fn is_note_word(bytes: &[u8]) -> bool
    ensures { result ≡ is_word_among note_words bytes.now }
{
    word_in(&WORDS[RESERVED..], bytes).is_some()
}

/// The word that these letters are, reserved or of annotations.
pub fn word(bytes: &[u8]) -> Option<Word>
    ensures { result ≡ word_of WORDS (map to_ascii_lowercase bytes.now) }
{
    word_in(&WORDS, bytes)
}
