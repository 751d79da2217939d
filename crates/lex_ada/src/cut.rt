// What stands at the front of a text.
ghost use Rattle.std.specs.Prelude.{◌≡◌, ◌==◌, ◌≤◌, ◌<◌, ◌^◌, length, false, IfOk};
ghost use Rattle.std.specs.List.{prefix_len, list_any};
ghost use Rattle.ada_tree.specs.Texts.{ends_line, begins};
ghost use Rattle.lex_ada.specs.Cutting.{name_length, number_length, word_kind, word_piece, number_piece, longer_mark, mark_cut, in_line, dash_cut, cut_at, size_of, note_after, line_after};

use crate::token::TokenKind;
use crate::words::{is_note_word, is_reserved};
use ada_tree::{LONGEST_NAME, LONGEST_NUMBER};

/// What stands at the front of a text.
#[derive(Clone, Copy, Debug, PartialEq, Eq)]
pub enum Cut {
    /// A byte that separates tokens.
    Blank,
    /// The end of a line, of one or two bytes.
    LineEnd(usize),
    /// Two dashes and a bar, after which annotation text stands.
    Note,
    /// A token of so many bytes.
    Piece(TokenKind, usize),
    /// After so many bytes there is the first that no token admits, or the end of the text.
    Bad(usize),
}

impl Cut {
    /// How many bytes it takes.
    pub fn size(self) -> usize
        ensures { result ≡ size_of self }
    {
        match self {
            Cut::Blank => 1,
            Cut::LineEnd(size) => size,
            Cut::Note => 3,
            Cut::Piece(_, size) => size,
            Cut::Bad(size) => size,
        }
    }

    /// Whether annotation text follows; `note` tells whether it stands here.
    pub fn note_after(self, note: bool) -> bool
        ensures { result ≡ note_after self note }
    {
        match self {
            Cut::LineEnd(_) => false,
            Cut::Note => true,
            Cut::Blank => note,
            Cut::Piece(_, _) => note,
            Cut::Bad(_) => note,
        }
    }

    /// The line that follows; the cut is in this one.
    pub fn line_after(self, line: usize) -> usize
        requires { line < 2 ^ 63 }
        ensures { result ≡ line_after self line }
    {
        match self {
            Cut::LineEnd(_) => line + 1,
            Cut::Blank => line,
            Cut::Note => line,
            Cut::Piece(_, _) => line,
            Cut::Bad(_) => line,
        }
    }
}

fn ends_line(byte: u8) -> bool
    ensures { result ≡ ends_line byte }
{
    b'\n' <= byte && byte <= b'\r'
}

fn begins_with(bytes: &[u8], byte: u8) -> bool
    ensures { result ≡ begins (λ b. b == byte) bytes.now }
{
    match bytes.first() {
        None => false,
        Some(first) => *first == byte,
    }
}

// How many bytes from the front on stand in the first line.
fn line_length(bytes: &[u8]) -> usize
    ensures value { result ≡ prefix_len in_line bytes.now }
    ensures within { result ≤ length bytes.now }
{
    for (i, byte) in bytes.iter().enumerate() {
        if ends_line(*byte) {
            return i;
        }
    }
    bytes.len()
}

// How far the name or word at the front goes, or which byte none admits.
fn name_length(bytes: &[u8]) -> Result<usize, usize>
    ensures value { result ≡ name_length false 0 bytes.now }
    ensures within { IfOk result (λ n. n ≤ length bytes.now) }
{
    let mut after = false;
    for (i, byte) in bytes.iter().enumerate() {
        if *byte == b'_' {
            if after || i >= LONGEST_NAME - 1 {
                return Err(i);
            }
            after = true;
        } else if byte.is_ascii_alphanumeric() {
            if i >= LONGEST_NAME {
                return Err(i);
            }
            after = false;
        } else if after {
            return Err(i);
        } else {
            return Ok(i);
        }
    }
    if after {
        Err(bytes.len())
    } else {
        Ok(bytes.len())
    }
}

// The same of a number.
fn number_length(bytes: &[u8]) -> Result<usize, usize>
    ensures value { result ≡ number_length false 0 bytes.now }
    ensures within { IfOk result (λ n. n ≤ length bytes.now) }
{
    let mut after = false;
    let mut digits = 0usize;
    for (i, byte) in bytes.iter().enumerate() {
        if *byte == b'_' {
            if after || digits >= LONGEST_NUMBER {
                return Err(i);
            }
            after = true;
        } else if byte.is_ascii_digit() {
            if digits >= LONGEST_NUMBER {
                return Err(i);
            }
            digits += 1;
            after = false;
        } else if after || byte.is_ascii_alphabetic() {
            return Err(i);
        } else {
            return Ok(i);
        }
    }
    if after {
        Err(bytes.len())
    } else {
        Ok(bytes.len())
    }
}

fn word_kind(bytes: &[u8], note: bool) -> TokenKind
    ensures { result ≡ word_kind note bytes.now }
{
    if is_reserved(bytes) || note && is_note_word(bytes) {
        TokenKind::Word
    } else {
        TokenKind::Name
    }
}

fn word_cut(bytes: &[u8], note: bool) -> Cut
    ensures { result ≡ word_piece note bytes.now (name_length false 0 bytes.now) }
{
    match name_length(bytes) {
        Ok(length) => Cut::Piece(word_kind(bytes.split_at(length).0, note), length),
        Err(length) => Cut::Bad(length),
    }
}

fn number_cut(bytes: &[u8]) -> Cut
    ensures { result ≡ number_piece (number_length false 0 bytes.now) }
{
    match number_length(bytes) {
        Ok(length) => Cut::Piece(TokenKind::Number, length),
        Err(length) => Cut::Bad(length),
    }
}

fn is_among(bytes: &[u8], byte: u8) -> bool
    ensures { result ≡ list_any (λ other. other == byte) bytes.now }
{
    bytes.iter().any(|other| *other == byte)
}

// A mark of one byte, or of two where one of these follows.
fn longer_mark(rest: &[u8], seconds: &[u8]) -> Cut
    ensures { result ≡ longer_mark seconds.now rest.now }
{
    let Some((next, _)) = rest.split_first() else {
        return Cut::Piece(TokenKind::Mark, 1);
    };
    if is_among(seconds, *next) {
        Cut::Piece(TokenKind::Mark, 2)
    } else {
        Cut::Piece(TokenKind::Mark, 1)
    }
}

// The longest mark.
fn mark_cut(first: u8, rest: &[u8]) -> Cut
    ensures { result ≡ mark_cut first rest.now }
{
    match first {
        b'*' => longer_mark(rest, b"*"),
        b'-' => longer_mark(rest, b">"),
        b'.' => longer_mark(rest, b"."),
        b'/' => longer_mark(rest, b"="),
        b':' => longer_mark(rest, b"="),
        b'<' => longer_mark(rest, b"=<>"),
        b'=' => longer_mark(rest, b">="),
        b'>' => longer_mark(rest, b"=>"),
        b'&' | b'\'' | b'(' | b')' | b'+' | b',' | b';' | b'|' | b'[' | b']' | b'@' => {
            Cut::Piece(TokenKind::Mark, 1)
        }
        _ => Cut::Bad(0),
    }
}

// At a dash annotation text begins, or there is a comment to the end of the line, or a mark.
fn dash_cut(rest: &[u8], note: bool) -> Cut
    ensures { result ≡ dash_cut note rest.now }
{
    let Some((second, text)) = rest.split_first() else {
        return mark_cut(b'-', rest);
    };
    if *second != b'-' {
        return mark_cut(b'-', rest);
    }
    if !note && begins_with(text, b'|') {
        return Cut::Note;
    }
    Cut::Piece(TokenKind::Comment, 2 + line_length(text))
}

/// What stands at the front of a text. `note` tells that it stands in annotation text.
pub fn cut_front(bytes: &[u8], note: bool) -> Cut
    ensures { result ≡ cut_at note bytes.now }
{
    let Some((first, rest)) = bytes.split_first() else {
        return Cut::Blank;
    };
    let first = *first;
    if ends_line(first) {
        let pair = first == b'\r' && begins_with(rest, b'\n');
        return Cut::LineEnd(if pair { 2 } else { 1 });
    }
    if first == b' ' || first == b'\t' {
        return Cut::Blank;
    }
    if first == b'-' {
        return dash_cut(rest, note);
    }
    if first.is_ascii_alphabetic() {
        return word_cut(bytes, note);
    }
    if first.is_ascii_digit() {
        return number_cut(bytes);
    }
    mark_cut(first, rest)
}
