// Tokens.
use base_kit::Listed;

/// What a token is.
#[derive(Clone, Copy, Debug, PartialEq, Eq)]
pub enum TokenKind {
    /// An identifier that is no word on its side. Names joined by `@` are three tokens.
    Name,
    Number,
    /// A reserved word, or in annotation text a word of annotations.
    Word,
    Mark,
    /// An ordinary comment, from its two dashes to the end of its line.
    Comment,
}

/// A token of a source text.
#[derive(Clone, Copy, Debug, PartialEq, Eq)]
pub struct Token {
    pub kind: TokenKind,
    /// The number of its first byte, from 0.
    pub start: u32,
    /// The number of the byte after its last one.
    pub end: u32,
    /// The line that it stands in, from 1.
    pub line: u32,
    /// It stands in annotation text; false for a comment.
    pub note: bool,
}

/// Tokens in order.
pub type Tokens = Listed<Token>;
