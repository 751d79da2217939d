// Tokens as they are read, and the sets that they are of.
ghost use Rattle.std.specs.Prelude.{◌≡◌, ◌&&◌, ◌<◌, ◌-◌, ◌^◌, map, bytes_eq, IfOk};
ghost use Rattle.std.specs.Char.{to_ascii_lowercase};
ghost use Rattle.std.specs.List.{list_any};
ghost use denote.Enum.Bare.{sameb};
ghost use Rattle.ada_tree.specs.Reading.{open_after};
ghost use Rattle.ada_tree.specs.Rendering.{lexeme_text};
ghost use Rattle.ada_tree.specs.Tables.{first_value};
ghost use Rattle.ada_tree.specs.contracts.word.Mark as mark_row;
ghost use Rattle.ada_tree.specs.contracts.word.Word as word_row;
ghost use Rattle.reading_machine.specs.Lexemes.{lexeme_of};
ghost use Rattle.reading_table.specs.Reading.{is_side};
ghost use Rattle.reading_table.specs.States.{is_of};
ghost use Rattle.reading_table.specs.TokenSets.{words_of, marks_of, arguments_in, has_form, has_name};

use ada_tree::{Argument, Mark, PROOF_RULES, ProofRule, Word};
use base_kit::{Memory, Text};
use lex_ada::is_spelled;
use reading_table::{Form, Tokens};
use std::alloc::Global;

/// What a token is, with the text that isn't told by that.
#[derive(Drop)]
pub enum Lexeme {
    /// In upper case.
    Name(Text),
    /// Without underscores and leading zeros.
    Number(Text),
    Word(Word),
    Mark(Mark),
}

impl Lexeme {
    /// Its text: a word's in lower case, a mark's as it is.
    pub fn into_text(self, alloc: Global) -> Result<Text, Memory>
        ensures { IfOk result (λ text. text ≡ lexeme_text (lexeme_of self)) }
    {
        match self {
            Lexeme::Name(text) => Ok(text),
            Lexeme::Number(text) => Ok(text),
            Lexeme::Word(word) => text_from(alloc, word.text()),
            Lexeme::Mark(mark) => text_from(alloc, mark.text()),
        }
    }

    /// Tells whether the text is that of the token.
    pub fn is_text(&self, text: &[u8]) -> bool
        ensures { result ≡ bytes_eq (lexeme_text (lexeme_of self.now)) text.now }
    {
        match self {
            Lexeme::Name(own) => own.as_bytes() == text,
            Lexeme::Number(own) => own.as_bytes() == text,
            Lexeme::Word(word) => word.text().as_bytes() == text,
            Lexeme::Mark(mark) => mark.text().as_bytes() == text,
        }
    }

    /// How many parentheses are open after the token, where so many are before it.
    pub fn open_after(&self, count: usize) -> usize
        requires { count < 2 ^ 64 - 1 }
        ensures { result ≡ open_after count (lexeme_of self.now) }
    {
        match self {
            Lexeme::Mark(Mark::Open) => count + 1,
            Lexeme::Mark(Mark::Close) => count.saturating_sub(1),
            _ => count,
        }
    }

    // Tells whether the token is of the set.
    fn is_of(&self, set: Tokens) -> bool
        ensures { result ≡ is_of set (lexeme_of self.now) }
    {
        match self {
            Lexeme::Name(text) => has_name(set, text.as_bytes()),
            Lexeme::Number(_) => matches!(set, Tokens::Number),
            Lexeme::Word(word) => has_word(set, *word),
            Lexeme::Mark(mark) => has_mark(set, *mark),
        }
    }
}

/// A token on its side.
#[derive(Drop)]
pub struct Token {
    /// It stands in annotation text.
    pub note: bool,
    pub lexeme: Lexeme,
}

impl Token {
    /// Tells whether the token stands on this side and is of the set.
    pub fn may_be(&self, note: bool, set: Tokens) -> bool
        ensures { result ≡ (is_side note self.now.note && is_of set (lexeme_of self.now.lexeme)) }
    {
        self.note == note && self.lexeme.is_of(set)
    }
}

/// The text of a word or a mark.
pub fn text_from(alloc: Global, text: &str) -> Result<Text, Memory>
    ensures { IfOk result (λ made. made ≡ text.now) }
{
    Ok(Text::from(Vec::from_slice(alloc, text.as_bytes())?))
}

fn has_name(set: Tokens, text: &[u8]) -> bool
    ensures { result ≡ has_name set text.now }
{
    match set {
        Tokens::Name => true,
        Tokens::NameOf(form) => has_form(form, text),
        _ => false,
    }
}

fn has_word(set: Tokens, word: Word) -> bool
    ensures { result ≡ list_any (sameb word_row.the_type word) (words_of set) }
{
    match set {
        Tokens::Word(own) => word == own,
        Tokens::Multiplying => matches!(word, Word::Mod | Word::Rem),
        Tokens::Highest => matches!(word, Word::Abs | Word::Not),
        Tokens::Maker => matches!(word, Word::Store | Word::Update | Word::Fill | Word::Make),
        _ => false,
    }
}

fn has_mark(set: Tokens, mark: Mark) -> bool
    ensures { result ≡ list_any (sameb mark_row.the_type mark) (marks_of set) }
{
    match set {
        Tokens::Mark(own) => mark == own,
        Tokens::Relational => matches!(
            mark,
            Mark::Equal
                | Mark::NotEqual
                | Mark::Less
                | Mark::LessEqual
                | Mark::Greater
                | Mark::GreaterEqual
        ),
        Tokens::Adding => matches!(mark, Mark::Plus | Mark::Minus),
        Tokens::Multiplying => matches!(mark, Mark::Star | Mark::Slash),
        _ => false,
    }
}

fn arguments_in(form: Form) -> &'static [Argument]
    ensures { result.now ≡ arguments_in form }
{
    match form {
        Form::Plain => &[],
        Form::Number => &[Argument::Number],
        Form::Name => &[Argument::Name],
        Form::NumberTerm => &[Argument::Number, Argument::Term],
        Form::Term => &[Argument::Term],
        Form::NumberName => &[Argument::Number, Argument::Name],
        Form::NumberIn => &[Argument::Number, Argument::InNumber],
        Form::NameIn => &[Argument::Name, Argument::InNumber],
        Form::NameNames => &[Argument::Name, Argument::Names],
        Form::Coefficients => &[Argument::Coefficients],
        Form::Lemma => &[Argument::LemmaName, Argument::Terms],
    }
}

// The rule of proof of this name, in any case, has arguments of the form.
fn has_form(form: Form, name: &[u8]) -> bool
    ensures { result ≡ has_form form name.now }
{
    let arguments = match rule_named(&PROOF_RULES, name) {
        None => &[],
        Some(rule) => rule.arguments(),
    };
    arguments == arguments_in(form)
}

/// The rule of proof of this name, in any case.
pub fn rule_named(rows: &[(ProofRule, &str, &[Argument])], name: &[u8]) -> Option<ProofRule>
    ensures { result ≡ first_value (λ row. row.0) (λ row. bytes_eq row.1.now (map to_ascii_lowercase name.now)) rows.now }
{
    for (rule, written, _) in rows {
        if is_spelled(written, name) {
            return Some(*rule);
        }
    }
    None
}
