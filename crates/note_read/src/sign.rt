// Tokens of a source as they are read.
ghost use Rattle.std.specs.Prelude.{◌≡◌, IfOk};
ghost use Rattle.lex_ada.specs.Meanings.{LiesIn, bytes_of, meaning};
ghost use Rattle.note_read.specs.Signs.{signs_of};

use base_kit::{Memory, Text};
use lex_ada::{Token as SourceToken, TokenKind};
use reading_machine::{Lexeme, Token};
use std::alloc::Global;

/// What a token of a source is to a reader.
#[derive(Drop)]
pub enum Sign {
    Token(Token),
    Comment(Text),
}

/// What the token of the source is; none where its bytes are no word or no mark of its kind.
pub fn sign_of(alloc: Global, token: &SourceToken, source: &[u8]) -> Result<Option<Sign>, Memory>
    requires { LiesIn token.now source.now }
    ensures { IfOk result (λ sign. signs_of sign ≡ meaning token.now.kind token.now.note (bytes_of source.now token.now)) }
{
    let lexeme = match token.kind {
        TokenKind::Comment => return Ok(Some(Sign::Comment(token.text(alloc, source)?))),
        TokenKind::Name => Lexeme::Name(token.text(alloc, source)?),
        TokenKind::Number => Lexeme::Number(token.text(alloc, source)?),
        TokenKind::Word => match token.word(source) {
            None => return Ok(None),
            Some(word) => Lexeme::Word(word),
        },
        TokenKind::Mark => match token.mark(source) {
            None => return Ok(None),
            Some(mark) => Lexeme::Mark(mark),
        },
    };
    Ok(Some(Sign::Token(Token {
        note: token.note,
        lexeme,
    })))
}
