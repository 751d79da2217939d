// Where a text is at fault.
ghost use Rattle.std.specs.Prelude.{◌≡◌, ◌+◌, ◌≤◌, ◌<◌, ◌^◌, length, All, if◌then◌else◌};
ghost use Rattle.std.specs.List.{list_any};
ghost use Rattle.std.specs.Option.{option_copied};
ghost use denote.Enum.Bare.{sameb};
ghost use Rattle.ada_tree.specs.contracts.word.Mark as mark_row;
ghost use Rattle.ada_tree.specs.contracts.word.Word as word_row;
ghost use Rattle.lex_ada.specs.Faults.{line_ends, fault_in};
ghost use Rattle.lex_ada.specs.Lexis.{is_return_before_feed};
ghost use Rattle.lex_ada.specs.Meanings.{LiesIn, bytes_of};
ghost use Rattle.ada_tree.specs.Texts.{ends_line};
ghost use Rattle.text_read.specs.Faults.{ends_in_line_end, last_line, token_behind, line_behind, is_unsupported, code_behind};

use crate::fragment::stands_in_notes;
use crate::unsupported::{UNSUPPORTED_MARKS, UNSUPPORTED_WORDS};
use ada_tree::{Mark, Word};
use base_kit::{Code, Fault, Place};
use lex_ada::{Token, TokenKind};

fn ends_line(byte: u8) -> bool
    ensures { result ≡ ends_line byte }
{
    (b'\n'..=b'\r').contains(&byte)
}

// How many lines end in the text.
fn line_ends(bytes: &[u8]) -> usize
    ensures number { result ≡ line_ends bytes.now }
    ensures few { result ≤ length bytes.now }
{
    let mut count = 0;
    let mut rest = bytes;
    while let Some((byte, behind)) = rest.split_first() {
        let is_first_of_two = *byte == b'\r' && behind.first() == Some(&b'\n');
        if ends_line(*byte) && !is_first_of_two {
            count += 1;
        }
        rest = behind;
    }
    count
}

fn ends_in_line_end(bytes: &[u8]) -> bool
    ensures { result ≡ ends_in_line_end bytes.now }
{
    match bytes.last() {
        None => false,
        Some(byte) => ends_line(*byte),
    }
}

// The last line of the text, from 1: a line end that ends the text begins no further one.
fn last_line(bytes: &[u8]) -> usize
    requires { length bytes.now < 2 ^ 32 }
    ensures { result ≡ last_line bytes.now }
{
    let ended = line_ends(bytes);
    if ends_in_line_end(bytes) {
        ended
    } else {
        ended + 1
    }
}

// The token behind so many others, comments apart.
fn token_behind(mut count: usize, tokens: &[Token]) -> Option<&Token>
    ensures { option_copied result ≡ token_behind count tokens.now }
{
    for token in tokens {
        if stands_in_notes(token.kind) {
            if count == 0 {
                return Some(token);
            }
            count -= 1;
        }
    }
    None
}

fn is_among_words(word: Word, words: &[Word]) -> bool
    ensures { result ≡ list_any (sameb word_row.the_type word) words.now }
{
    words.iter().any(|other| word == *other)
}

fn is_among_marks(mark: Mark, marks: &[Mark]) -> bool
    ensures { result ≡ list_any (sameb mark_row.the_type mark) marks.now }
{
    marks.iter().any(|other| mark == *other)
}

// A word or a mark that begins a form outside the profile.
fn is_unsupported(token: &Token, source: &[u8]) -> bool
    requires { LiesIn token.now source.now }
    ensures { result ≡ is_unsupported token.now.kind (bytes_of source.now token.now) }
{
    match token.kind {
        TokenKind::Word => match token.word(source) {
            None => false,
            Some(word) => is_among_words(word, &UNSUPPORTED_WORDS),
        },
        TokenKind::Mark => match token.mark(source) {
            None => false,
            Some(mark) => is_among_marks(mark, &UNSUPPORTED_MARKS),
        },
        _ => false,
    }
}

/// The fault of the token behind so many others; of the end of the text, where there are no more.
pub fn fault_behind(code: Code, count: usize, tokens: &[Token], source: &[u8]) -> Fault
    requires { length source.now < 2 ^ 32 }
    ensures { result ≡ fault_in code (line_behind source.now tokens.now count) }
{
    let line = match token_behind(count, tokens) {
        Some(token) => token.line,
        None => last_line(source) as u32,
    };
    Fault {
        code,
        place: Place::Line(0, line),
        count: 0,
    }
}

/// What is wrong with a token that no reading admits, behind so many others.
pub fn code_behind(count: usize, tokens: &[Token], source: &[u8]) -> Code
    requires { All (λ token. LiesIn token source.now) tokens.now }
    ensures { result ≡ code_behind source.now tokens.now count }
{
    match token_behind(count, tokens) {
        Some(token) if is_unsupported(token, source) => Code::F23,
        _ => Code::F03,
    }
}
