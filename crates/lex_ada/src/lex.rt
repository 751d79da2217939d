// The tokens of a text, or what is wrong with it.
ghost use Rattle.std.specs.Prelude.{◌≡◌, ◌<◌, ◌^◌, ℕ, List, Ok, Err, length, drop};
ghost use Rattle.base_kit.specs.declared.fault.Code.{Code as ACode};
ghost use Rattle.lex_ada.specs.declared.token.Token.{Token as AToken};
ghost use Rattle.lex_ada.specs.Lexis.{AreTokens};
ghost use Rattle.lex_ada.specs.Faults.{is_text_byte, code_at, fault_in, IsFault, Answers, Gives};

use crate::scan::{Scanned, scan};
use crate::token::Tokens;
use base_kit::{Code, Fault, Place, Stop};
use std::alloc::Global;

// Printable bytes, HT and the ends of lines.
fn is_text_byte(byte: u8) -> bool
    ensures { result ≡ is_text_byte byte }
{
    matches!(byte, b' '..=b'~' | 9..=13)
}

// What is wrong at the byte of this number, or at the end.
fn code_at(bytes: &[u8], at: usize) -> Code
    ensures { result ≡ code_at (drop at bytes.now) }
{
    match bytes.get(at) {
        Some(byte) if !is_text_byte(*byte) => Code::F01,
        _ => Code::F02,
    }
}

/// The tokens of a text, in order. The text is scanned once, and not copied.
///
/// # Errors
///
/// The fault is at the first byte that no token admits: there the text before it goes on to one
/// that has tokens, and with this byte no more. It is `F01` at a byte that stands in no text, `F02`
/// at any other and at the end of the text. Its place is the byte's line, in file 0.
/// `Stop::Memory` where memory runs out.
pub fn tokens(alloc: Global, bytes: &[u8]) -> Result<Tokens, Stop>
    requires { length bytes.now < 2 ^ 32 }
    ensures answer { Answers result bytes.now }
    ensures only { (tokens : List AToken) → AreTokens bytes.now tokens → Gives result (Ok tokens) }
    ensures only_fault { (code : ACode) (line : ℕ) → IsFault bytes.now code line → Gives result (Err (fault_in code line)) }
{
    match scan(alloc, bytes)? {
        Scanned::Tokens(tokens) => Ok(tokens),
        Scanned::Refused(refusal) => Err(Stop::Fault(Fault {
            code: code_at(bytes, refusal.at),
            place: Place::Line(0, refusal.line),
            count: 0,
        })),
    }
}
