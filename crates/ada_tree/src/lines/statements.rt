// The lines of statements.
use crate::grammar::{Choice, Own, Piece, Shape};
use crate::kind::Kind;
use crate::word::{Mark, Word};

// Seq = {stmt \n}+ [ "exception" \> {Handler \n}+ \< ]
pub const SEQ: &[Piece] = &[
    Piece::Kid(Shape::Many(Choice::Stmt)),
    Piece::Option,
    Piece::Word(Word::Exception),
    Piece::Indent,
    Piece::Kid(Shape::Many(Choice::Only(Kind::Handler))),
    Piece::Outdent,
    Piece::End,
];

// Handler = "when" choices "=>" \> {stmt \n}+ \<
pub const HANDLER: &[Piece] = &[
    Piece::Word(Word::When),
    Piece::Kid(Shape::One(Choice::Choices)),
    Piece::Mark(Mark::Arrow),
    Piece::Indent,
    Piece::Kid(Shape::Many(Choice::Stmt)),
    Piece::Outdent,
];

// Others = "others"
pub const OTHERS: &[Piece] = &[Piece::Word(Word::Others)];

// Choices = {choice |}
pub const CHOICES: &[Piece] = &[Piece::Kid(Shape::Listed(Choice::Choice, Mark::Bar))];

// Null = "null" ";"
pub const NULL: &[Piece] = &[Piece::Word(Word::Null), Piece::Mark(Mark::Semicolon)];

// Assign = expr ":=" expr ";"
pub const ASSIGN: &[Piece] = &[
    Piece::Kid(Shape::One(Choice::Expr)),
    Piece::Mark(Mark::Becomes),
    Piece::Kid(Shape::One(Choice::Expr)),
    Piece::Mark(Mark::Semicolon),
];

// Call = expr ";"
pub const CALL: &[Piece] = &[
    Piece::Kid(Shape::One(Choice::Expr)),
    Piece::Mark(Mark::Semicolon),
];

// If = "if" expr "then" \> {stmt \n}+ \< {Elsif} [ "else" \> {stmt \n}+ \< ] "end" "if" ";"
pub const IF: &[Piece] = &[
    Piece::Word(Word::If),
    Piece::Kid(Shape::One(Choice::Expr)),
    Piece::Word(Word::Then),
    Piece::Indent,
    Piece::Kid(Shape::Many(Choice::Stmt)),
    Piece::Outdent,
    Piece::Kid(Shape::Any(Choice::Only(Kind::Elsif))),
    Piece::Option,
    Piece::Word(Word::Else),
    Piece::Indent,
    Piece::Kid(Shape::Many(Choice::Stmt)),
    Piece::Outdent,
    Piece::End,
    Piece::Word(Word::End),
    Piece::Word(Word::If),
    Piece::Mark(Mark::Semicolon),
];

// Elsif = "elsif" expr "then" \> {stmt \n}+ \<
pub const ELSIF: &[Piece] = &[
    Piece::Word(Word::Elsif),
    Piece::Kid(Shape::One(Choice::Expr)),
    Piece::Word(Word::Then),
    Piece::Indent,
    Piece::Kid(Shape::Many(Choice::Stmt)),
    Piece::Outdent,
];

// Case = "case" expr "is" \> {Alt \n}+ \< "end" "case" ";"
pub const CASE: &[Piece] = &[
    Piece::Word(Word::Case),
    Piece::Kid(Shape::One(Choice::Expr)),
    Piece::Word(Word::Is),
    Piece::Indent,
    Piece::Kid(Shape::Many(Choice::Only(Kind::Alt))),
    Piece::Outdent,
    Piece::Word(Word::End),
    Piece::Word(Word::Case),
    Piece::Mark(Mark::Semicolon),
];

// Alt = "when" choices "=>" \> {stmt \n}+ \<
pub const ALT: &[Piece] = &[
    Piece::Word(Word::When),
    Piece::Kid(Shape::One(Choice::Choices)),
    Piece::Mark(Mark::Arrow),
    Piece::Indent,
    Piece::Kid(Shape::Many(Choice::Stmt)),
    Piece::Outdent,
];

// Loop = [ head ] "loop" \> [ Invariant ] {stmt \n}+ \< "end" "loop" ";"
pub const LOOP: &[Piece] = &[
    Piece::Option,
    Piece::Kid(Shape::One(Choice::Head)),
    Piece::End,
    Piece::Word(Word::Loop),
    Piece::Indent,
    Piece::Option,
    Piece::Kid(Shape::One(Choice::Only(Kind::Invariant))),
    Piece::End,
    Piece::Kid(Shape::Many(Choice::Stmt)),
    Piece::Outdent,
    Piece::Word(Word::End),
    Piece::Word(Word::Loop),
    Piece::Mark(Mark::Semicolon),
];

// While = "while" expr
pub const WHILE: &[Piece] = &[
    Piece::Word(Word::While),
    Piece::Kid(Shape::One(Choice::Expr)),
];

// For = "for" <id> "in" dis
pub const FOR: &[Piece] = &[
    Piece::Word(Word::For),
    Piece::Own(Own::Id),
    Piece::Word(Word::In),
    Piece::Kid(Shape::One(Choice::Dis)),
];

// Reverse = "for" <id> "in" "reverse" dis
pub const REVERSE: &[Piece] = &[
    Piece::Word(Word::For),
    Piece::Own(Own::Id),
    Piece::Word(Word::In),
    Piece::Word(Word::Reverse),
    Piece::Kid(Shape::One(Choice::Dis)),
];

// Block = [ "declare" \> {decl \n} \< ] "begin" \> Seq \< "end" ";"
pub const BLOCK: &[Piece] = &[
    Piece::Option,
    Piece::Word(Word::Declare),
    Piece::Indent,
    Piece::Kid(Shape::Any(Choice::Decl)),
    Piece::Outdent,
    Piece::End,
    Piece::Word(Word::Begin),
    Piece::Indent,
    Piece::Kid(Shape::One(Choice::Only(Kind::Seq))),
    Piece::Outdent,
    Piece::Word(Word::End),
    Piece::Mark(Mark::Semicolon),
];

// Exit = "exit" [ "when" expr ] ";"
pub const EXIT: &[Piece] = &[
    Piece::Word(Word::Exit),
    Piece::Option,
    Piece::Word(Word::When),
    Piece::Kid(Shape::One(Choice::Expr)),
    Piece::End,
    Piece::Mark(Mark::Semicolon),
];

// Return = "return" [ expr ] ";"
pub const RETURN: &[Piece] = &[
    Piece::Word(Word::Return),
    Piece::Option,
    Piece::Kid(Shape::One(Choice::Expr)),
    Piece::End,
    Piece::Mark(Mark::Semicolon),
];

// Raise = "raise" [ mark ] ";"
pub const RAISE: &[Piece] = &[
    Piece::Word(Word::Raise),
    Piece::Option,
    Piece::Kid(Shape::One(Choice::Mark)),
    Piece::End,
    Piece::Mark(Mark::Semicolon),
];

// Assert = [| "assert" term ";" |]
pub const ASSERT: &[Piece] = &[
    Piece::NoteOn,
    Piece::Word(Word::Assert),
    Piece::Kid(Shape::One(Choice::Expr)),
    Piece::Mark(Mark::Semicolon),
    Piece::NoteOff,
];
