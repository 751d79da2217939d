// What the rows of the reading table are made of.
use crate::rule::Rule;
use ada_tree::{Kind, Mark, Word};

/// Tokens that serve at one place.
#[derive(Clone, Copy)]
pub enum Tokens {
    Word(Word),
    Mark(Mark),
    Name,
    /// A name whose rule of proof has arguments of this form.
    NameOf(Form),
    Number,
    /// `=`, `/=`, `<`, `<=`, `>`, `>=`.
    Relational,
    /// `+`, `-`.
    Adding,
    /// `*`, `/`, `mod`, `rem`.
    Multiplying,
    /// `abs`, `not`.
    Highest,
    /// `store`, `update`, `fill`, `make`.
    Maker,
}

/// The forms that the arguments of a proof step have, by its rule.
#[derive(Clone, Copy)]
pub enum Form {
    Plain,
    Number,
    Name,
    NumberTerm,
    Term,
    NumberName,
    NumberIn,
    NameIn,
    NameNames,
    Coefficients,
    Lemma,
}

/// A symbol of a row.
#[derive(Clone, Copy)]
pub enum Symbol {
    /// A token that isn't kept.
    Take(Tokens),
    /// A token whose text becomes a value.
    Keep(Tokens),
    /// A name whose text is that of the value so many below the last one. It isn't kept.
    Closing(u8),
    Part(Rule),
    /// The last so many values become a node.
    Build(Kind, u8),
    /// The last value becomes the last member of the list before it.
    Join,
    /// A word's text becomes a value, though it isn't written.
    Say(Word),
    /// The last two values, which are texts, become one, with this byte between them.
    Paste(u8),
    /// The last value, a text, is put in lower case.
    Lower,
    /// The text of the value so many below the last one becomes a value.
    Recall(u8),
    /// The comments that wait become a value.
    Notes,
    /// The comments before the last value, a node, become the node's.
    Noted,
    /// The comments that wait become those of the last value, a list or a file.
    EndNotes,
}
