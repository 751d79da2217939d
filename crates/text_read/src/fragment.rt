// The tokens of a text of a part.
ghost use Rattle.std.specs.Prelude.{◌≡◌, map, bytes_eq, true, All, IfOk};
ghost use Rattle.std.specs.Char.{to_ascii_lowercase};
ghost use Rattle.ada_tree.specs.Tables.{first_value};
ghost use Rattle.ada_tree.specs.Parts.{is_noted, has_noted_tokens, stands_in_annotations, stands_anywhere, begins_annotation};
ghost use Rattle.ada_tree.specs.Texts.{is_word_among};
ghost use Rattle.ada_tree.specs.Words.{note_words};
ghost use Rattle.lex_ada.specs.Meanings.{LiesIn};
ghost use Rattle.lex_ada.specs.Cutting.{note_of};
ghost use Rattle.reading_table.specs.Spelled.{has_texts};
ghost use Rattle.text_read.specs.Fragments.{tokens_in};
ghost use Rattle.text_signs.specs.Fragments.{noted_token, noted_tokens};

use ada_tree::{Kind, Part, RESERVED, Rule, WORDS, Word};
use base_kit::Memory;
use lex_ada::{Token, TokenKind, Tokens, is_spelled};
use std::alloc::Global;

// The kinds that begin an annotation.
fn begins_annotation(kind: Kind) -> bool
    ensures { result ≡ begins_annotation kind }
{
    matches!(
        kind,
        Kind::Where
            | Kind::Based
            | Kind::View
            | Kind::Invariant
            | Kind::Assert
            | Kind::Trait
            | Kind::Proof
            | Kind::Orphan
    )
}

// The kinds that stand in annotations alone.
fn stands_in_annotations(kind: Kind) -> bool
    ensures { result ≡ stands_in_annotations kind }
{
    matches!(
        kind,
        Kind::Global
            | Kind::In
            | Kind::Out
            | Kind::RaiseC
            | Kind::Old
            | Kind::Result
            | Kind::All
            | Kind::Exists
            | Kind::Cond
            | Kind::Make
            | Kind::Incl
            | Kind::Op
            | Kind::Gen
            | Kind::Vars
            | Kind::Eqn
            | Kind::Lemma
            | Kind::Key
            | Kind::Step
    )
}

// The kinds that stand on both sides.
fn stands_anywhere(kind: Kind) -> bool
    ensures { result ≡ stands_anywhere kind }
{
    matches!(
        kind,
        Kind::Id
            | Kind::Name
            | Kind::Select
            | Kind::Int
            | Kind::Binary
            | Kind::Unary
            | Kind::Apply
            | Kind::Attr
            | Kind::Assoc
            | Kind::Others
            | Kind::Choices
            | Kind::Span
    )
}

/// Whether there are texts of the part: of each but the kinds of documents, lists, and what is left out.
pub fn has_texts(part: Part) -> bool
    ensures { result ≡ has_texts part }
{
    match part.rule {
        Rule::Of(kind) => !matches!(kind, Kind::Doc | Kind::List | Kind::None),
        _ => true,
    }
}

/// Tells whether the place of the part is in an annotation.
pub fn is_noted(part: Part) -> bool
    ensures { result ≡ is_noted part }
{
    match part.rule {
        Rule::Of(kind) => stands_in_annotations(kind) || stands_anywhere(kind) && part.note,
        Rule::AnyMark | Rule::AnyChoices | Rule::AnyChoice | Rule::AnyPrimary | Rule::AnyArg =>
            part.note,
        Rule::AnyWclause | Rule::AnyTerm => true,
        _ => false,
    }
}

fn has_noted_tokens(part: Part) -> bool
    ensures { result ≡ has_noted_tokens part }
{
    is_noted(part)
        || match part.rule {
            Rule::Of(kind) => begins_annotation(kind),
            _ => false,
        }
}

// The word that these letters are in this table.
fn word_in(rows: &[(Word, &str)], bytes: &[u8]) -> Option<Word>
    ensures { result ≡ first_value (λ row. row.0) (λ row. bytes_eq row.1.now (map to_ascii_lowercase bytes.now)) rows.now }
{
    for (word, text) in rows {
        if is_spelled(text, bytes) {
            return Some(*word);
        }
    }
    None
}

fn is_note_word(bytes: &[u8]) -> bool
    ensures { result ≡ is_word_among note_words bytes.now }
{
    word_in(&WORDS[RESERVED..], bytes).is_some()
}

/// Whether the token is no comment.
pub fn stands_in_notes(kind: TokenKind) -> bool
    ensures { result ≡ note_of true kind }
{
    !matches!(kind, TokenKind::Comment)
}

// The token as one of annotation text.
fn noted_token(source: &[u8], token: &Token) -> Token
    requires { LiesIn token.now source.now }
    ensures { result ≡ noted_token source.now token.now }
{
    let kind = match token.kind {
        TokenKind::Name if is_note_word(token.bytes(source)) => TokenKind::Word,
        kind => kind,
    };
    Token {
        kind,
        start: token.start,
        end: token.end,
        line: token.line,
        note: stands_in_notes(token.kind),
    }
}

fn noted_tokens(alloc: Global, source: &[u8], tokens: &[Token]) -> Result<Tokens, Memory>
    requires { All (λ token. LiesIn token source.now) tokens.now }
    ensures { IfOk result (λ noted. noted ≡ noted_tokens source.now tokens.now) }
{
    let mut noted = Tokens::new(alloc);
    for token in tokens {
        noted.push(noted_token(source, token))?;
    }
    Ok(noted)
}

/// The tokens of a text of the part: where it stands in annotations, they are all annotation tokens.
pub fn tokens_in(alloc: Global, part: Part, source: &[u8], tokens: Tokens) -> Result<Tokens, Memory>
    requires { All (λ token. LiesIn token source.now) tokens }
    ensures { IfOk result (λ own. own ≡ tokens_in part source.now tokens) }
{
    if has_noted_tokens(part) {
        noted_tokens(alloc, source, tokens.as_slice())
    } else {
        Ok(tokens)
    }
}
