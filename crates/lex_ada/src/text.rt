// What a token of a source gives: its text, its word, its mark.
ghost use Rattle.std.specs.Prelude.{◌≡◌, ◌==◌, ◌++◌, ◌∷◌, [], map, filter, not, reverse, drop, nat_eq, codes, if◌then◌else◌, IfOk, OnOk};
ghost use Rattle.std.specs.List.{starts_with};
ghost use Rattle.std.specs.Char.{to_ascii_uppercase, to_ascii_lowercase};
ghost use Rattle.ada_tree.specs.declared.word.TheConstants.{WORDS};
ghost use Rattle.ada_tree.specs.Words.{word_of, mark_of};
ghost use Rattle.lex_ada.specs.Meanings.{bytes_of, name_text, number_text, without_zeros, without_blanks, comment_text, token_text, LiesIn};

use crate::token::{Token, TokenKind};
use crate::words;
use ada_tree::{Mark, Word};
use base_kit::{Memory, Text};
use std::alloc::Global;

impl Token {
    /// The token's bytes in its source.
    pub fn bytes<'a>(&self, source: &'a [u8]) -> &'a [u8]
        requires { LiesIn self.now source.now }
        ensures { result.now ≡ bytes_of source.now self.now }
    {
        let (_, rest) = source.split_at(self.start as usize);
        rest.split_at((self.end - self.start) as usize).0
    }

    /// The token's text: a name in upper case, a number without underscores and leading zeros, a
    /// word in lower case, a mark as it is, a comment without blanks at its end.
    pub fn text(&self, alloc: Global, source: &[u8]) -> Result<Text, Memory>
        requires { LiesIn self.now source.now }
        ensures { IfOk result (λ text. text ≡ token_text self.now.kind (bytes_of source.now self.now)) }
    {
        let bytes = self.bytes(source);
        let text = match self.kind {
            TokenKind::Name => upper(alloc, bytes)?,
            TokenKind::Number => number(alloc, bytes)?,
            TokenKind::Word => lower(alloc, bytes)?,
            TokenKind::Mark => Vec::from_slice(alloc, bytes)?,
            TokenKind::Comment => comment(alloc, bytes)?,
        };
        Ok(Text::from(text))
    }

    /// The word that a token of the kind `Word` is. It takes no memory.
    pub fn word(&self, source: &[u8]) -> Option<Word>
        requires { LiesIn self.now source.now }
        ensures { result ≡ word_of WORDS (map to_ascii_lowercase (bytes_of source.now self.now)) }
    {
        words::word(self.bytes(source))
    }

    /// The mark that a token of the kind `Mark` is. It takes no memory.
    pub fn mark(&self, source: &[u8]) -> Option<Mark>
        requires { LiesIn self.now source.now }
        ensures { result ≡ mark_of (bytes_of source.now self.now) }
    {
        Mark::of(self.bytes(source))
    }
}

fn upper(alloc: Global, bytes: &[u8]) -> Result<Vec<u8>, Memory>
    ensures { IfOk result (λ text. text.items ≡ name_text bytes.now) }
{
    let text = bytes
        .iter()
        .map(|byte| byte.to_ascii_uppercase())
        .collect(alloc)?;
    Ok(text)
}

fn lower(alloc: Global, bytes: &[u8]) -> Result<Vec<u8>, Memory>
    ensures { IfOk result (λ text. text.items ≡ map to_ascii_lowercase bytes.now) }
{
    let text = bytes
        .iter()
        .map(|byte| byte.to_ascii_lowercase())
        .collect(alloc)?;
    Ok(text)
}

fn digits(alloc: Global, bytes: &[u8]) -> Result<Vec<u8>, Memory>
    ensures { IfOk result (λ text. text.items ≡ filter (λ b. not (b == 95)) bytes.now) }
{
    let text = bytes
        .iter()
        .copied()
        .filter(|byte| *byte != b'_')
        .collect(alloc)?;
    Ok(text)
}

fn without_zeros(digits: &[u8]) -> &[u8]
    ensures { result.now ≡ without_zeros digits.now }
{
    let mut rest = digits;
    while let Some((b'0', tail)) = rest.split_first() {
        if tail.is_empty() {
            break;
        }
        rest = tail;
    }
    rest
}

fn number(alloc: Global, bytes: &[u8]) -> Result<Vec<u8>, Memory>
    ensures { IfOk result (λ text. text.items ≡ number_text bytes.now) }
{
    let digits = digits(alloc, bytes)?;
    let text = Vec::from_slice(alloc, without_zeros(digits.as_slice()))?;
    Ok(text)
}

// A blank comes between the dashes and a bar after them.
fn with_blank(alloc: Global, bytes: &[u8]) -> Result<Vec<u8>, Memory>
    ensures { IfOk result (λ text. text.items ≡ (if starts_with nat_eq bytes.now (codes "--|") then codes "-- " ++ drop 2 bytes.now else bytes.now)) }
{
    let mut text = Vec::new(alloc);
    if bytes.starts_with("--|".as_bytes()) {
        text.extend_from_slice("-- ".as_bytes())?;
        text.extend_from_slice(bytes.split_at(2).1)?;
    } else {
        text.extend_from_slice(bytes)?;
    }
    Ok(text)
}

fn drop_blanks(text: &mut Vec<u8>)
    ensures { text.new.items ≡ reverse (without_blanks (reverse text.old.items)) }
{
    while let Some(last) = text.last() {
        if *last != b' ' && *last != b'\t' {
            return;
        }
        let _ = text.pop();
    }
}

fn comment(alloc: Global, bytes: &[u8]) -> Result<Vec<u8>, Memory>
    ensures { IfOk result (λ text. text.items ≡ comment_text bytes.now) }
{
    let mut text = with_blank(alloc, bytes)?;
    drop_blanks(&mut text);
    Ok(text)
}
