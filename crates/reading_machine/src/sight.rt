// What of a token tells how a part is read.
ghost use Rattle.std.specs.Prelude.{◌≡◌, ◌<◌, IsTrue};
ghost use Rattle.reading_machine.specs.Lexemes.{lexeme_of, token_of};
ghost use Rattle.reading_machine.specs.Sights.{class_of, sight_of};

use crate::lexeme::{Lexeme, Token, rule_named};
use ada_tree::{Mark, PROOF_RULES, ProofRule, Word};

/// What of a token's text tells of which sets it is.
#[derive(Clone, Copy)]
pub enum Class {
    /// A name, and the rule of proof that bears it.
    Name(Option<ProofRule>),
    Number,
    Word(Word),
    Mark(Mark),
}

/// What of a token tells how a part is read.
#[derive(Clone, Copy)]
pub struct Sight {
    /// It stands in annotation text.
    pub note: bool,
    pub class: Class,
}

fn is_rule(own: Option<ProofRule>, other: Option<ProofRule>) -> bool
    ensures { IsTrue result → own ≡ other }
{
    match (own, other) {
        (None, None) => true,
        (Some(own), Some(other)) => own == other,
        _ => false,
    }
}

impl Class {
    fn is(self, other: Class) -> bool
        ensures { IsTrue result → self ≡ other }
    {
        match (self, other) {
            (Class::Number, Class::Number) => true,
            (Class::Name(own), Class::Name(rule)) => is_rule(own, rule),
            (Class::Word(own), Class::Word(word)) => own == word,
            (Class::Mark(own), Class::Mark(mark)) => own == mark,
            _ => false,
        }
    }
}

fn class_of(lexeme: &Lexeme) -> Class
    ensures { result ≡ class_of (lexeme_of lexeme.now) }
{
    match lexeme {
        Lexeme::Name(text) => Class::Name(rule_named(&PROOF_RULES, text.as_bytes())),
        Lexeme::Number(_) => Class::Number,
        Lexeme::Word(word) => Class::Word(*word),
        Lexeme::Mark(mark) => Class::Mark(*mark),
    }
}

/// What of the token tells how a part is read.
pub fn sight_of(token: &Token) -> Sight
    ensures { result ≡ sight_of (token_of token.now) }
{
    Sight {
        note: token.note,
        class: class_of(&token.lexeme),
    }
}

impl Sight {
    /// Tells whether it is the other one.
    pub fn is(self, other: Sight) -> bool
        ensures { IsTrue result → self ≡ other }
    {
        if self.note != other.note {
            return false;
        }
        self.class.is(other.class)
    }

    /// A number that is mostly another one for another sight, below 512.
    pub fn number(self) -> usize
        ensures { result < 512 }
    {
        match self.class {
            Class::Name(None) => 0,
            Class::Name(Some(rule)) => rule as usize,
            Class::Number => 1,
            Class::Word(word) => word as usize,
            Class::Mark(mark) => 128 + mark as usize,
        }
    }
}
