// The tokens of texts of every sort, as one table; and what tokens give.
use ada_tree::{Mark, Word};
use base_kit::{Code, Fault, Memory, Place, Stop, Text};
use lex_ada::{Token, TokenKind, tokens};
use std::alloc::Global;
use std::test::Fail;

// A token by its kind, first byte, next byte, line, and whether it stands in annotation text.
#[derive(Clone, Copy, PartialEq, Eq)]
struct Told(TokenKind, u32, u32, u32, bool);

#[derive(Clone, Copy)]
enum Answer {
    Tokens(&'static [Told]),
    Fault(Code, u32),
}

const NAME: TokenKind = TokenKind::Name;

const NUMBER: TokenKind = TokenKind::Number;

const WORD: TokenKind = TokenKind::Word;

const MARK: TokenKind = TokenKind::Mark;

const COMMENT: TokenKind = TokenKind::Comment;

const ROWS: &[(&[u8], Answer)] = &[
    // nothing, and what separates
    (b"", Answer::Tokens(&[])),
    (b" \t\n\x0b\x0c\r\r\n", Answer::Tokens(&[])),
    // the ends of lines
    (
        b"A\nB",
        Answer::Tokens(&[Told(NAME, 0, 1, 1, false), Told(NAME, 2, 3, 2, false)]),
    ),
    (
        b"A\rB",
        Answer::Tokens(&[Told(NAME, 0, 1, 1, false), Told(NAME, 2, 3, 2, false)]),
    ),
    (
        b"A\r\nB",
        Answer::Tokens(&[Told(NAME, 0, 1, 1, false), Told(NAME, 3, 4, 2, false)]),
    ),
    (
        b"A\n\rB",
        Answer::Tokens(&[Told(NAME, 0, 1, 1, false), Told(NAME, 3, 4, 3, false)]),
    ),
    (
        b"A\r\r\nB",
        Answer::Tokens(&[Told(NAME, 0, 1, 1, false), Told(NAME, 4, 5, 3, false)]),
    ),
    (
        b"A\x0bB",
        Answer::Tokens(&[Told(NAME, 0, 1, 1, false), Told(NAME, 2, 3, 2, false)]),
    ),
    (
        b"A\x0cB",
        Answer::Tokens(&[Told(NAME, 0, 1, 1, false), Told(NAME, 2, 3, 2, false)]),
    ),
    (
        b"A\tB",
        Answer::Tokens(&[Told(NAME, 0, 1, 1, false), Told(NAME, 2, 3, 1, false)]),
    ),
    // faults, with their lines
    (b"A\n\x01", Answer::Fault(Code::F01, 2)),
    (b"A\r\n\x01", Answer::Fault(Code::F01, 2)),
    (b"A\r\r\x01", Answer::Fault(Code::F01, 3)),
    (b"A\n\n?", Answer::Fault(Code::F02, 3)),
    (b"?\n\x01", Answer::Fault(Code::F02, 1)),
    (b"\x01\n?", Answer::Fault(Code::F01, 1)),
    (b"A\x01", Answer::Fault(Code::F01, 1)),
    (b"A_\x01", Answer::Fault(Code::F01, 1)),
    // underscores
    (b"A_B", Answer::Tokens(&[Told(NAME, 0, 3, 1, false)])),
    (b"A__B", Answer::Fault(Code::F02, 1)),
    (b"A_", Answer::Fault(Code::F02, 1)),
    (b"A_\n", Answer::Fault(Code::F02, 1)),
    (b"_A", Answer::Fault(Code::F02, 1)),
    (b"1_000", Answer::Tokens(&[Told(NUMBER, 0, 5, 1, false)])),
    (b"1__0", Answer::Fault(Code::F02, 1)),
    (b"1_", Answer::Fault(Code::F02, 1)),
    (b"1X", Answer::Fault(Code::F02, 1)),
    (b"1_X", Answer::Fault(Code::F02, 1)),
    // the longest token counts
    (
        b":==",
        Answer::Tokens(&[Told(MARK, 0, 2, 1, false), Told(MARK, 2, 3, 1, false)]),
    ),
    (
        b"A->B",
        Answer::Tokens(&[
            Told(NAME, 0, 1, 1, false),
            Told(MARK, 1, 3, 1, false),
            Told(NAME, 3, 4, 1, false),
        ]),
    ),
    (
        b"1..2",
        Answer::Tokens(&[
            Told(NUMBER, 0, 1, 1, false),
            Told(MARK, 1, 3, 1, false),
            Told(NUMBER, 3, 4, 1, false),
        ]),
    ),
    (
        b"1.2",
        Answer::Tokens(&[
            Told(NUMBER, 0, 1, 1, false),
            Told(MARK, 1, 2, 1, false),
            Told(NUMBER, 2, 3, 1, false),
        ]),
    ),
    (
        b"...",
        Answer::Tokens(&[Told(MARK, 0, 2, 1, false), Told(MARK, 2, 3, 1, false)]),
    ),
    (
        b"X'RANGE",
        Answer::Tokens(&[
            Told(NAME, 0, 1, 1, false),
            Told(MARK, 1, 2, 1, false),
            Told(WORD, 2, 7, 1, false),
        ]),
    ),
    (
        b"A<=B",
        Answer::Tokens(&[
            Told(NAME, 0, 1, 1, false),
            Told(MARK, 1, 3, 1, false),
            Told(NAME, 3, 4, 1, false),
        ]),
    ),
    (
        b"<<<>>>",
        Answer::Tokens(&[
            Told(MARK, 0, 2, 1, false),
            Told(MARK, 2, 4, 1, false),
            Told(MARK, 4, 6, 1, false),
        ]),
    ),
    (
        b"A@B",
        Answer::Tokens(&[
            Told(NAME, 0, 1, 1, false),
            Told(MARK, 1, 2, 1, false),
            Told(NAME, 2, 3, 1, false),
        ]),
    ),
    // comments
    (
        b"A--B",
        Answer::Tokens(&[Told(NAME, 0, 1, 1, false), Told(COMMENT, 1, 4, 1, false)]),
    ),
    (
        b"A-B",
        Answer::Tokens(&[
            Told(NAME, 0, 1, 1, false),
            Told(MARK, 1, 2, 1, false),
            Told(NAME, 2, 3, 1, false),
        ]),
    ),
    (
        b"A---B",
        Answer::Tokens(&[Told(NAME, 0, 1, 1, false), Told(COMMENT, 1, 5, 1, false)]),
    ),
    (b"--", Answer::Tokens(&[Told(COMMENT, 0, 2, 1, false)])),
    (
        b"-- |\nA",
        Answer::Tokens(&[Told(COMMENT, 0, 4, 1, false), Told(NAME, 5, 6, 2, false)]),
    ),
    (
        b"-- a  \nA",
        Answer::Tokens(&[Told(COMMENT, 0, 6, 1, false), Told(NAME, 7, 8, 2, false)]),
    ),
    (
        b"-- \xc3\xa4\x01\xff\n-- b",
        Answer::Tokens(&[
            Told(COMMENT, 0, 7, 1, false),
            Told(COMMENT, 8, 12, 2, false),
        ]),
    ),
    // annotation text
    (
        b"--|A\nA",
        Answer::Tokens(&[Told(NAME, 3, 4, 1, true), Told(NAME, 5, 6, 2, false)]),
    ),
    (b"--|--", Answer::Tokens(&[Told(COMMENT, 3, 5, 1, false)])),
    (
        b"--|A--|B\nA",
        Answer::Tokens(&[
            Told(NAME, 3, 4, 1, true),
            Told(COMMENT, 4, 8, 1, false),
            Told(NAME, 9, 10, 2, false),
        ]),
    ),
    (
        b"--|A -- \xff",
        Answer::Tokens(&[Told(NAME, 3, 4, 1, true), Told(COMMENT, 5, 9, 1, false)]),
    ),
    (b"--|\xff", Answer::Fault(Code::F01, 1)),
    (b"--|?", Answer::Fault(Code::F02, 1)),
    // a word of annotations is a name outside them
    (
        b"where\n--|WHERE",
        Answer::Tokens(&[Told(NAME, 0, 5, 1, false), Told(WORD, 9, 14, 2, true)]),
    ),
    (b"BeGiN", Answer::Tokens(&[Told(WORD, 0, 5, 1, false)])),
];

fn row_of(token: &Token) -> Told {
    Told(token.kind, token.start, token.end, token.line, token.note)
}

fn are_rows(tokens: &[Token], expected: &[Told]) -> bool {
    tokens.len() == expected.len()
        && tokens
            .iter()
            .zip(expected)
            .all(|(token, row)| row_of(token) == *row)
}

fn is_fault(fault: &Fault, code: Code, line: u32) -> bool {
    match fault.place {
        Place::Line(file, at) => fault.code == code && file == 0 && at == line,
        Place::At(_) => false,
    }
}

fn gives(alloc: Global, text: &[u8], expected: Answer) -> Result<bool, Memory> {
    if text.len() >= 1 << 32 {
        return Ok(false);
    }
    match (tokens(alloc, text), expected) {
        (Ok(found), Answer::Tokens(row)) => Ok(are_rows(found.as_slice(), row)),
        (Err(Stop::Fault(fault)), Answer::Fault(code, line)) => Ok(is_fault(&fault, code, line)),
        (Err(Stop::Memory), _) => Err(Memory),
        _ => Ok(false),
    }
}

// The number of the first row that is wrong.
fn first_wrong(alloc: Global) -> Option<usize> {
    ROWS.iter()
        .position(|(text, answer)| gives(alloc, text, *answer) != Ok(true))
}

#[test]
fn texts_have_their_tokens_or_their_fault(rt: HostRuntime) {
    assert_eq!(rt; first_wrong(rt.alloc()), None);
}

// ---- limits

fn repeated(alloc: Global, byte: u8, times: u32) -> Result<Vec<u8>, Memory> {
    let mut text = Vec::new(alloc);
    for _ in 0..times {
        text.push(byte)?;
    }
    Ok(text)
}

fn repeated_gives(alloc: Global, byte: u8, times: u32, expected: Answer) -> Result<bool, Memory> {
    let text = repeated(alloc, byte, times)?;
    gives(alloc, text.as_slice(), expected)
}

#[test]
fn names_and_numbers_have_their_limits(rt: HostRuntime) -> Result<(), Fail> {
    let alloc = rt.alloc();
    let name = Answer::Tokens(&[Told(NAME, 0, 120, 1, false)]);
    assert!(rt; repeated_gives(alloc, b'A', 120, name)?);
    assert!(rt; repeated_gives(alloc, b'A', 121, Answer::Fault(Code::F02, 1))?);
    let number = Answer::Tokens(&[Told(NUMBER, 0, 18, 1, false)]);
    assert!(rt; repeated_gives(alloc, b'0', 18, number)?);
    assert!(rt; repeated_gives(alloc, b'0', 19, Answer::Fault(Code::F02, 1))?);
    Ok(())
}

// ---- every byte

const MARKS_OF_ONE_BYTE: &[u8] = b"&'()*+,-./:;<=>|[]@";

// What a byte is by itself.
fn alone(byte: u8, note: bool) -> Answer {
    match byte {
        b'A'..=b'Z' | b'a'..=b'z' if note => Answer::Tokens(&[Told(NAME, 3, 4, 1, true)]),
        b'A'..=b'Z' | b'a'..=b'z' => Answer::Tokens(&[Told(NAME, 0, 1, 1, false)]),
        b'0'..=b'9' if note => Answer::Tokens(&[Told(NUMBER, 3, 4, 1, true)]),
        b'0'..=b'9' => Answer::Tokens(&[Told(NUMBER, 0, 1, 1, false)]),
        9..=13 | b' ' => Answer::Tokens(&[]),
        _ if MARKS_OF_ONE_BYTE.contains(&byte) && note => {
            Answer::Tokens(&[Told(MARK, 3, 4, 1, true)])
        }
        _ if MARKS_OF_ONE_BYTE.contains(&byte) => Answer::Tokens(&[Told(MARK, 0, 1, 1, false)]),
        33..=126 => Answer::Fault(Code::F02, 1),
        _ => Answer::Fault(Code::F01, 1),
    }
}

// What a byte is after the dashes and a blank of a comment.
fn in_comment(byte: u8) -> Answer {
    match byte {
        10..=13 => Answer::Tokens(&[Told(COMMENT, 0, 3, 1, false)]),
        _ => Answer::Tokens(&[Told(COMMENT, 0, 4, 1, false)]),
    }
}

fn after(alloc: Global, front: &[u8], byte: u8) -> Result<Vec<u8>, Memory> {
    let mut text = Vec::new(alloc);
    text.extend_from_slice(front)?;
    text.push(byte)?;
    Ok(text)
}

fn after_gives(alloc: Global, front: &[u8], byte: u8, expected: Answer) -> Result<bool, Memory> {
    let text = after(alloc, front, byte)?;
    gives(alloc, text.as_slice(), expected)
}

fn byte_gives(alloc: Global, byte: u8) -> Result<bool, Memory> {
    let outside = after_gives(alloc, b"", byte, alone(byte, false))?;
    let in_note = after_gives(alloc, b"--|", byte, alone(byte, true))?;
    let inside = after_gives(alloc, b"-- ", byte, in_comment(byte))?;
    Ok(outside && in_note && inside)
}

fn first_wrong_byte(alloc: Global) -> Result<Option<u8>, Memory> {
    for byte in 0..=255 {
        if !byte_gives(alloc, byte)? {
            return Ok(Some(byte));
        }
    }
    Ok(None)
}

#[test]
fn every_byte_is_a_token_a_blank_or_a_fault(rt: HostRuntime) -> Result<(), Fail> {
    assert_eq!(rt; first_wrong_byte(rt.alloc())?, None);
    Ok(())
}

// A text of so many names, each on a line of its own.
fn names(alloc: Global, count: u32) -> Result<Vec<u8>, Memory> {
    let mut text = Vec::new(alloc);
    for _ in 0..count {
        text.extend_from_slice(b"Name\n")?;
    }
    Ok(text)
}

fn tokens_of_names(alloc: Global, count: u32) -> Result<Option<usize>, Memory> {
    let text = names(alloc, count)?;
    if text.len() >= 1 << 32 {
        return Ok(None);
    }
    Ok(match tokens(alloc, text.as_slice()) {
        Ok(found) => Some(found.as_slice().len()),
        Err(_) => None,
    })
}

#[test]
fn a_long_text_has_its_tokens(rt: HostRuntime) -> Result<(), Fail> {
    assert_eq!(rt; tokens_of_names(rt.alloc(), 200_000)?, Some(200_000));
    Ok(())
}

// ---- what tokens give

// The text of the first token.
fn first_text(alloc: Global, source: &[u8]) -> Result<Option<Text>, Memory> {
    if source.len() >= 1 << 32 {
        return Ok(None);
    }
    match tokens(alloc, source) {
        Ok(found) => match found.as_slice().first() {
            Some(token) if token.end as usize <= source.len() && token.start <= token.end => Ok(
                Some(token.text(alloc, source)?),
            ),
            _ => Ok(None),
        },
        Err(_) => Ok(None),
    }
}

fn gives_text(alloc: Global, source: &[u8], expected: &[u8]) -> Result<bool, Memory> {
    Ok(match first_text(alloc, source)? {
        Some(text) => text.as_bytes() == expected,
        None => false,
    })
}

// A text, and the text of its first token.
const TEXTS: &[(&[u8], &[u8])] = &[
    (b"aBc_1", b"ABC_1"),
    (b"00_1_20", b"120"),
    (b"0_0", b"0"),
    (b"BEGIN", b"begin"),
    (b":=", b":="),
    (b"-- a b \t", b"-- a b"),
    (b"--", b"--"),
    (b"--|--|a ", b"-- |a"),
];

// The number of the first row that is wrong.
fn first_wrong_text(alloc: Global) -> Option<usize> {
    TEXTS.iter().position(|(source, expected)| gives_text(alloc, source, expected) != Ok(true))
}

#[test]
fn tokens_give_their_text(rt: HostRuntime) {
    assert_eq!(rt; first_wrong_text(rt.alloc()), None);
}

const LOOP: Token = Token {
    kind: WORD,
    start: 2,
    end: 6,
    line: 1,
    note: false,
};

const BECOMES: Token = Token {
    kind: MARK,
    start: 0,
    end: 2,
    line: 1,
    note: false,
};

#[test]
fn tokens_give_their_word_and_mark(rt: HostRuntime) {
    assert!(rt; LOOP.bytes(b"  Loop") == b"Loop".as_slice());
    assert!(rt; LOOP.word(b"  Loop") == Some(Word::Loop));
    assert!(rt; LOOP.word(b"  Lope").is_none());
    assert!(rt; BECOMES.mark(b":=") == Some(Mark::Becomes));
    assert!(rt; BECOMES.mark(b"=:").is_none());
}
