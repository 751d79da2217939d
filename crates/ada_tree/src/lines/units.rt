// The lines of files, library units and subprograms.
use crate::grammar::{Choice, Own, Piece, Shape};
use crate::kind::Kind;
use crate::word::{Mark, Word};

// Doc = {File}
pub const DOC: &[Piece] = &[Piece::Members(Choice::Only(Kind::File))];

// File = {item \n}
pub const FILE: &[Piece] = &[Piece::Members(Choice::Item)];

// Unit = {clause \n} lib
pub const UNIT: &[Piece] = &[
    Piece::Kid(Shape::Any(Choice::Clause)),
    Piece::Kid(Shape::One(Choice::Lib)),
];

// With = "with" {Name ,} ";"
pub const WITH: &[Piece] = &[
    Piece::Word(Word::With),
    Piece::Kid(Shape::Listed(Choice::Only(Kind::Name), Mark::Comma)),
    Piece::Mark(Mark::Semicolon),
];

// Use = "use" {Name ,} ";"
pub const USE: &[Piece] = &[
    Piece::Word(Word::Use),
    Piece::Kid(Shape::Listed(Choice::Only(Kind::Name), Mark::Comma)),
    Piece::Mark(Mark::Semicolon),
];

// Pack = "package" <id> "is" \> {decl \n} \< [ "private" \> {decl \n} \< ] "end" [<id>] ";"
pub const PACK: &[Piece] = &[
    Piece::Word(Word::Package),
    Piece::Own(Own::Id),
    Piece::Word(Word::Is),
    Piece::Indent,
    Piece::Kid(Shape::Any(Choice::Decl)),
    Piece::Outdent,
    Piece::Option,
    Piece::Word(Word::Private),
    Piece::Indent,
    Piece::Kid(Shape::Any(Choice::Decl)),
    Piece::Outdent,
    Piece::End,
    Piece::Word(Word::End),
    Piece::Own(Own::Closing),
    Piece::Mark(Mark::Semicolon),
];

// Body = "package" "body" <id> "is" \> {decl \n} \< "end" [<id>] ";"
pub const BODY: &[Piece] = &[
    Piece::Word(Word::Package),
    Piece::Word(Word::Body),
    Piece::Own(Own::Id),
    Piece::Word(Word::Is),
    Piece::Indent,
    Piece::Kid(Shape::Any(Choice::Decl)),
    Piece::Outdent,
    Piece::Word(Word::End),
    Piece::Own(Own::Closing),
    Piece::Mark(Mark::Semicolon),
];

// SubDecl = spec ";" [ Where ]
pub const SUB_DECL: &[Piece] = &[
    Piece::Kid(Shape::One(Choice::Spec)),
    Piece::Mark(Mark::Semicolon),
    Piece::Option,
    Piece::Kid(Shape::One(Choice::Only(Kind::Where))),
    Piece::End,
];

// SubBody = spec [ Where ] "is" \> {decl \n} \< "begin" \> Seq \< "end" [<id>] ";"
pub const SUB_BODY: &[Piece] = &[
    Piece::Kid(Shape::One(Choice::Spec)),
    Piece::Option,
    Piece::Kid(Shape::One(Choice::Only(Kind::Where))),
    Piece::End,
    Piece::Word(Word::Is),
    Piece::Indent,
    Piece::Kid(Shape::Any(Choice::Decl)),
    Piece::Outdent,
    Piece::Word(Word::Begin),
    Piece::Indent,
    Piece::Kid(Shape::One(Choice::Only(Kind::Seq))),
    Piece::Outdent,
    Piece::Word(Word::End),
    Piece::Own(Own::Closing),
    Piece::Mark(Mark::Semicolon),
];

// Proc = "procedure" <id> [ Formals ]
pub const PROC: &[Piece] = &[
    Piece::Word(Word::Procedure),
    Piece::Own(Own::Id),
    Piece::Option,
    Piece::Kid(Shape::One(Choice::Only(Kind::Formals))),
    Piece::End,
];

// Func = "function" <id> [ Formals ] "return" mark
pub const FUNC: &[Piece] = &[
    Piece::Word(Word::Function),
    Piece::Own(Own::Id),
    Piece::Option,
    Piece::Kid(Shape::One(Choice::Only(Kind::Formals))),
    Piece::End,
    Piece::Word(Word::Return),
    Piece::Kid(Shape::One(Choice::Mark)),
];

// Formals = "(" {Formal ;} ")"
pub const FORMALS: &[Piece] = &[
    Piece::Mark(Mark::Open),
    Piece::Kid(Shape::Listed(Choice::Only(Kind::Formal), Mark::Semicolon)),
    Piece::Mark(Mark::Close),
];

// Formal = {Id ,} ":" <mode> mark
pub const FORMAL: &[Piece] = &[
    Piece::Kid(Shape::Listed(Choice::Only(Kind::Id), Mark::Comma)),
    Piece::Mark(Mark::Colon),
    Piece::Own(Own::Mode),
    Piece::Kid(Shape::One(Choice::Mark)),
];

// Id = <id>
pub const ID: &[Piece] = &[Piece::Own(Own::Id)];

// Name = <id>
pub const NAME: &[Piece] = &[Piece::Own(Own::Id)];
