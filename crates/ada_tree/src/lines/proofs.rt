// The lines of proofs.
use crate::grammar::{Choice, Own, Piece, Shape};
use crate::kind::Kind;
use crate::word::{Mark, Word};

// Proof = [| "proof" "of" Key "is" \> Step \< "end" "proof" ";" |]
pub const PROOF: &[Piece] = &[
    Piece::NoteOn,
    Piece::Word(Word::Proof),
    Piece::Word(Word::Of),
    Piece::Kid(Shape::One(Choice::Only(Kind::Key))),
    Piece::Word(Word::Is),
    Piece::Indent,
    Piece::Kid(Shape::One(Choice::Only(Kind::Step))),
    Piece::Outdent,
    Piece::Word(Word::End),
    Piece::Word(Word::Proof),
    Piece::Mark(Mark::Semicolon),
    Piece::NoteOff,
];

// Orphan = [| "orphan" "proof" "of" Key "is" \> Step \< "end" "proof" ";" |]
pub const ORPHAN: &[Piece] = &[
    Piece::NoteOn,
    Piece::Word(Word::Orphan),
    Piece::Word(Word::Proof),
    Piece::Word(Word::Of),
    Piece::Kid(Shape::One(Choice::Only(Kind::Key))),
    Piece::Word(Word::Is),
    Piece::Indent,
    Piece::Kid(Shape::One(Choice::Only(Kind::Step))),
    Piece::Outdent,
    Piece::Word(Word::End),
    Piece::Word(Word::Proof),
    Piece::Mark(Mark::Semicolon),
    Piece::NoteOff,
];

// Key = <key>
pub const KEY: &[Piece] = &[Piece::Own(Own::Key)];

// Step = <rule> {arg} [ "[" {Step ;} "]" ], where the arguments are those of the rule
pub const STEP: &[Piece] = &[
    Piece::Own(Own::Rule),
    Piece::Arguments,
    Piece::Option,
    Piece::Mark(Mark::OpenBracket),
    Piece::Kid(Shape::Listed(Choice::Only(Kind::Step), Mark::Semicolon)),
    Piece::Mark(Mark::CloseBracket),
    Piece::End,
];
