// The tokens of a text.
ghost use Rattle.std.specs.Prelude.{◌≡◌, ◌<◌, ◌≤◌, ◌+◌, ◌++◌, ◌^◌, length, false, List, Ok, IfOk, OnOk, Option};
ghost use Rattle.std.specs.Option.{option_to_list};
ghost use Rattle.lex_ada.specs.declared.token.Token.{Token as AToken};
ghost use Rattle.lex_ada.specs.Scans.{outcome_of};
ghost use Rattle.lex_ada.specs.Cutting.{scanned, size_of, token_of};

use crate::cut::{Cut, cut_front};
use crate::token::{Token, TokenKind, Tokens};
use base_kit::Memory;
use std::alloc::Global;

/// A byte that no token admits, or the end of the text: its number, from 0, and its line, from 1.
#[derive(Clone, Copy, Debug, PartialEq, Eq)]
pub struct Refusal {
    pub at: usize,
    pub line: u32,
}

/// What the scan of a text finds.
#[derive(Drop)]
pub enum Scanned {
    /// All its tokens.
    Tokens(Tokens),
    /// The first byte that no token admits.
    Refused(Refusal),
}

// The token that a cut is, if it is one: it begins at this byte, in this line.
fn token_of(cut: Cut, note: bool, at: usize, line: usize) -> Option<Token>
    requires end { at + size_of cut < 2 ^ 32 }
    requires line { line < 2 ^ 32 }
    ensures { result ≡ token_of cut note at line }
{
    match cut {
        Cut::Piece(kind, size) => Some(Token {
            kind,
            start: at as u32,
            end: (at + size) as u32,
            line: line as u32,
            note: note && kind != TokenKind::Comment,
        }),
        Cut::Blank | Cut::LineEnd(_) | Cut::Note | Cut::Bad(_) => None,
    }
}

fn add(tokens: &mut Vec<Token>, token: Option<Token>) -> Result<(), Memory>
    ensures { OnOk result (tokens.new.items ≡ tokens.old.items ++ option_to_list token) }
{
    if let Some(token) = token {
        tokens.push(token)?;
    }
    Ok(())
}

/// Cuts token after token from the front.
pub fn scan(alloc: Global, bytes: &[u8]) -> Result<Scanned, Memory>
    requires { length bytes.now < 2 ^ 32 }
    ensures { IfOk result (λ scan. outcome_of scan ≡ scanned 0 false 0 1 bytes.now) }
{
    let mut tokens = Vec::new(alloc);
    let mut rest = bytes;
    let mut note = false;
    let mut line = 1usize;
    while !rest.is_empty() {
        let at = bytes.len() - rest.len();
        let cut = cut_front(rest, note);
        if let Cut::Bad(size) = cut {
            return Ok(Scanned::Refused(Refusal {
                at: at + size,
                line: line as u32,
            }));
        }
        add(&mut tokens, token_of(cut, note, at, line))?;
        line = cut.line_after(line);
        note = cut.note_after(note);
        rest = rest.split_at(cut.size()).1;
    }
    Ok(Scanned::Tokens(Tokens::from(tokens)))
}
