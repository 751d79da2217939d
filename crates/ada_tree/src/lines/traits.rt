// The lines of traits.
use crate::grammar::{Choice, Own, Piece, Shape};
use crate::kind::Kind;
use crate::word::{Mark, Word};

// Trait = [| "trait" <id> "is" \> {Incl \n} [ "introduces" \> {Op \n} \< ] {Gen \n} [ "asserts" ["for" "all" {Vars ;}] \> {Eqn \n} \< ] [ "implies" ["for" "all" {Vars ;}] \> {Lemma \n} \< ] \< "end" "trait" ";" |]
pub const TRAIT: &[Piece] = &[
    Piece::NoteOn,
    Piece::Word(Word::Trait),
    Piece::Own(Own::Id),
    Piece::Word(Word::Is),
    Piece::Indent,
    Piece::Kid(Shape::Any(Choice::Only(Kind::Incl))),
    Piece::Shown(1),
    Piece::Word(Word::Introduces),
    Piece::Indent,
    Piece::Kid(Shape::Any(Choice::Only(Kind::Op))),
    Piece::Outdent,
    Piece::End,
    Piece::Kid(Shape::Any(Choice::Only(Kind::Gen))),
    Piece::Shown(2),
    Piece::Word(Word::Asserts),
    Piece::Kid(Shape::ForAll),
    Piece::Indent,
    Piece::Kid(Shape::Any(Choice::Only(Kind::Eqn))),
    Piece::Outdent,
    Piece::End,
    Piece::Shown(2),
    Piece::Word(Word::Implies),
    Piece::Kid(Shape::ForAll),
    Piece::Indent,
    Piece::Kid(Shape::Any(Choice::Only(Kind::Lemma))),
    Piece::Outdent,
    Piece::End,
    Piece::Outdent,
    Piece::Word(Word::End),
    Piece::Word(Word::Trait),
    Piece::Mark(Mark::Semicolon),
    Piece::NoteOff,
];

// Incl = "includes" Name ";"
pub const INCL: &[Piece] = &[
    Piece::Word(Word::Includes),
    Piece::Kid(Shape::One(Choice::Only(Kind::Name))),
    Piece::Mark(Mark::Semicolon),
];

// Op = <id> ":" {mark ,} "->" mark ";", where the list may be empty
pub const OP: &[Piece] = &[
    Piece::Own(Own::Id),
    Piece::Mark(Mark::Colon),
    Piece::Kid(Shape::MaybeListed(Choice::Mark, Mark::Comma)),
    Piece::Mark(Mark::To),
    Piece::Kid(Shape::One(Choice::Mark)),
    Piece::Mark(Mark::Semicolon),
];

// Gen = "generated" <id> "by" {Name ,} ";"
pub const GEN: &[Piece] = &[
    Piece::Word(Word::Generated),
    Piece::Own(Own::Id),
    Piece::Word(Word::By),
    Piece::Kid(Shape::Listed(Choice::Only(Kind::Name), Mark::Comma)),
    Piece::Mark(Mark::Semicolon),
];

// Vars = {Id ,} ":" mark
pub const VARS: &[Piece] = &[
    Piece::Kid(Shape::Listed(Choice::Only(Kind::Id), Mark::Comma)),
    Piece::Mark(Mark::Colon),
    Piece::Kid(Shape::One(Choice::Mark)),
];

// Eqn = term "==" term ";"
pub const EQN: &[Piece] = &[
    Piece::Kid(Shape::One(Choice::Expr)),
    Piece::Mark(Mark::DoubleEqual),
    Piece::Kid(Shape::One(Choice::Expr)),
    Piece::Mark(Mark::Semicolon),
];

// Lemma = <id> ":" term ";"
pub const LEMMA: &[Piece] = &[
    Piece::Own(Own::Id),
    Piece::Mark(Mark::Colon),
    Piece::Kid(Shape::One(Choice::Expr)),
    Piece::Mark(Mark::Semicolon),
];
