// Texts of parts of the grammar: what they are read as, or their fault.
use crate::ends::{End, fragment_end};
use ada_tree::{Kind, Part, Rule};
use base_kit::{Code, Memory};
use std::alloc::Global;

// ---- each part

// Where the part stands: in Ada text, in annotations, or where its rule says, whatever the part tells.
#[derive(Clone, Copy)]
enum Side {
    Ada,
    Note,
    Either,
}

// A rule, its side, a text and the kind of its node, and a text that is wrong at the first token of its second line.
type Row = (Rule, Side, &'static str, Kind, &'static str);

// Rows of the rules of kinds, whose nodes are of these kinds.
macro_rules! kinds {
    ($($kind:ident $side:ident $text:literal $wrong:literal;)*) => {
        &[$((Rule::Of(Kind::$kind), Side::$side, $text, Kind::$kind, $wrong)),*]
    };
}

macro_rules! choices {
    ($($rule:ident $side:ident $text:literal $kind:ident $wrong:literal;)*) => {
        &[$((Rule::$rule, Side::$side, $text, Kind::$kind, $wrong)),*]
    };
}

// Of each kind that has texts.
const KINDS: &[Row] = kinds! {
    File Either "procedure P; procedure Q;" "procedure P;\nend;";
    Unit Either "with A; use B; procedure P;" "procedure P;\nprocedure Q;";
    With Either "with A, B;" "with A\nB;";
    Use Either "use A, B;" "use A\n.B;";
    Pack Either "package P is private end P;" "package P is end\nQ;";
    Body Either "package body P is end;" "package body P is\nbegin null; end;";
    SubDecl Either "procedure P; --| where end where;" "procedure P\nis begin null; end P;";
    SubBody Either "procedure P is begin null; end;" "procedure P\n;";
    Proc Either "procedure P (A : T)" "procedure P\n;";
    Func Either "function F return A.B" "function F\n;";
    Formals Either "(A : T; B : out T)" "(A : T\n, B : T)";
    Formal Either "A, B : in out T" "A : in out\nin T";
    Id Ada "TRAIT" "A\n.B";
    Id Note "A" "\nTRAIT";
    Name Ada "STORE" "A\n@B";
    Name Ada "iff" "A\n, B";
    Name Note "A @ B" "\nSTORE";
    Name Note "return @ call2" "\nIFF";
    Select Ada "A(1).B" "A.\n1";
    Select Note "(in A).B" "A.\nSTORE";
    Obj Either "A, B : T range 1 .. 2 := 3;" "A :\nconstant T := 1;";
    Const Either "A : constant T := 1;" "A : constant\n:= 1;";
    Num Either "A : constant := 1;" "A : constant\nT := 1;";
    Range Either "range 1 .. 2" "range 1 ..\n;";
    TypeDecl Either "type T is range 1 .. 2;" "type T is\nprivate;";
    Enum Either "(A, B)" "(A,\n1)";
    Arr Either "array (1 .. 2) of T" "array (1 .. 2\n, 1 .. 2) of T";
    Rec Either "record A : T; end record" "record\nend record";
    Comp Either "A, B : T;" "A : T\n:= 1;";
    Subtype Either "subtype S is T range 1 .. 2;" "subtype S is T\n(1);";
    Exc Either "A, B : exception;" "A :\nT;";
    Private Either "type T is private; --| based on S;" "type T is\nrange 1 .. 2;";
    Span Ada "1 .. A + 2" "1 .. A\n= 2";
    Span Note "1 .. A + 2" "1 .. A\nimplies B";
    RangeOf Either "A.B'range" "A'\nFIRST";
    Seq Either "null; exception when others => null;" "null;\nwhen others => null;";
    Handler Either "when A | B => null;" "when A =>\nwhen B => null;";
    Others Ada "others" "others\n=>";
    Others Note "others" "others\n| A";
    Choices Ada "A | 1 .. 2" "A\n=> 1";
    Choices Note "A implies B | C" "A |\nothers";
    Null Either "null;" "null\nnull;";
    Assign Either "A(1) := B;" "A(1)\n;";
    Call Either "A(1);" "A(1)\n:= B;";
    If Either "if A then null; elsif B then null; else null; end if;" "if A then null; else null;\nelsif B then null; end if;";
    Elsif Either "elsif A then null;" "elsif A then null;\nelse null;";
    Case Either "case A is when 1 => null; end case;" "case A is\nend case;";
    Alt Either "when 1 => null;" "when 1 =>\nend";
    Loop Either "loop null; end loop;" "loop\nend loop;";
    Block Either "declare A : T; begin null; end;" "begin null; end\nP;";
    Exit Either "exit when A;" "exit\nA;";
    Return Either "return A + 1;" "return A\n, B;";
    Raise Either "raise A.B;" "raise A\n+ B;";
    Assert Either "assert A;" "assert A\n:= B;";
    While Either "while A" "while A\nloop null; end loop;";
    For Either "for I in 1 .. 2" "for I in\nreverse 1 .. 2";
    Reverse Either "for I in reverse A'range" "for I in\n1 .. 2";
    Binary Ada "A and then B" "A\nimplies B";
    Binary Note "A implies B" "A and\nthen B";
    Unary Ada "-A" "-A\n+ B";
    Unary Note "not A" "not\nnot A";
    Member Either "A in 1 .. 2" "A in 1 .. 2\n= B";
    Int Ada "1_000" "1\n+ 1";
    Int Note "7" "\n-7";
    Apply Ada "A(1, B => 2)" "A(\n)";
    Apply Note "(in A)(1)" "(in A)\n;";
    Attr Ada "A'FIRST" "A'\n1";
    Attr Note "A(1)'LAST" "A'\nassert";
    Assoc Ada "A | B => 1" "A\n, B => 1";
    Assoc Note "A => B implies C" "A => B\n=> C";
    Aggr Either "(A, 1)" "(A\n)";
    Where Either "where in A; end where;" "where in A;\nassert B; end where;";
    Global Either "global A, B.C;" "global\nout A;";
    In Either "in A = 1;" "in A\n:= 1;";
    Out Either "out return = in A;" "out\n;";
    RaiseC Either "raise A.B => C;" "raise A\n| B => C;";
    Based Either "based on A.B;" "based\nA;";
    View Either "view A of B is C invariant D;" "view A of B\n.C is D;";
    Invariant Either "invariant A >= 0;" "invariant A >= 0\n>= 1;";
    Old Either "in A.B" "in A\n(1)";
    Result Either "return" "return\nA";
    All Either "for all I in 1 .. N : A(I) = 0" "for all I in 1 .. N\n, 3 : A";
    Exists Either "exists I in (N - 1) .. N : A" "exists I\n: A";
    Cond Either "if A then B else C" "if A then B\n;";
    Make Either "store(A, 1, B + 1)" "store\nA";
    Trait Either "trait L is end trait;" "trait L is introduces\nend trait;";
    Incl Either "includes A;" "includes A\n, B;";
    Op Either "F : A, B.C -> D;" "F : A\n;";
    Gen Either "generated S by A, B;" "generated S\nA;";
    Vars Either "A, B : C.D" "A : C\n; B : D";
    Eqn Either "F(A) == B;" "F(A) == B\n== C;";
    Lemma Either "L : A = B;" "L :\n: A;";
    Proof Either "proof of P.entry.1 is open end proof;" "proof of P\nis open end proof;";
    Orphan Either "orphan proof of L.F is simplify end proof;" "orphan\nof L.F is simplify end proof;";
    Key Either "A.P.loop1.2" "A.P.loop1.2\n.3";
    Step Either "linear (1, -2) [refl]" "hyp\nA";
};

const CHOICES: &[Row] = choices! {
    AnyItem Either "--| trait L is end trait;" Trait "procedure P;\nprocedure Q;";
    AnyClause Either "use A;" Use "with A\nB;";
    AnyLib Either "package body P is end;" Body "\nuse A;";
    AnySpec Either "function F (A : T) return T" Func "procedure P\nreturn T";
    AnyMark Ada "A.B" Select "A.B\n(1)";
    AnyMark Note "A" Name "A.\nSTORE";
    AnyDecl Either "--| view A of B is C;" View "\nwith A;";
    AnyTdef Either "record A : T; end record" Rec "\nprivate";
    AnyDis Either "A'range" RangeOf "A\n= B";
    AnyChoices Ada "others" Others "A |\nothers";
    AnyChoices Note "A | B implies C" Choices "A\n=> B";
    AnyChoice Ada "A = B" Binary "A = B\n.. C";
    AnyChoice Note "A implies B" Binary "A implies B\n.. C";
    AnyStmt Either "exit;" Exit "exit;\nexit;";
    AnyHead Either "for I in reverse A" Reverse "\nloop";
    AnyExpr Either "A and then B" Binary "A and B\nor C";
    AnyPrimary Ada "(A + B)" Binary "A\n+ B";
    AnyPrimary Ada "STORE" Name "\nnot A";
    AnyPrimary Note "(in A)" Old "\nin A";
    AnyPrimary Note "A" Name "\nSTORE";
    AnyArg Ada "A | 1 .. 2 => 3" Assoc "A .. B\n, C";
    AnyArg Note "A implies B" Binary "A and\nthen B";
    AnyWclause Either "global in out A;" Global "in A and\nthen B;";
    AnyTerm Either "if A then B else C" Cond "for all I in 1 .. 2\n, 3 : A";
};

fn is_read_as(alloc: Global, row: &Row, note: bool) -> Result<bool, Memory> {
    let (rule, _, text, kind, wrong) = *row;
    let part = Part { rule, note };
    Ok(
        fragment_end(alloc, part, text.as_bytes())? == Some(End::Node(kind))
            && fragment_end(alloc, part, wrong.as_bytes())? == Some(End::Fault(Code::F03, 2)),
    )
}

fn is_row_right(alloc: Global, row: &Row) -> Result<bool, Memory> {
    match row.1 {
        Side::Ada => is_read_as(alloc, row, false),
        Side::Note => is_read_as(alloc, row, true),
        Side::Either => Ok(is_read_as(alloc, row, false)? && is_read_as(alloc, row, true)?),
    }
}

// The number of the first row that is wrong.
fn first_wrong_row(alloc: Global, rows: &[Row]) -> Option<usize> {
    rows.iter()
        .position(|row| is_row_right(alloc, row) != Ok(true))
}

#[test]
fn each_part_has_texts_and_faults(rt: HostRuntime) {
    assert_eq!(rt; first_wrong_row(rt.alloc(), KINDS), None);
    assert_eq!(rt; first_wrong_row(rt.alloc(), CHOICES), None);
}

// ---- more texts

// A rule, a text, and what becomes of it.
type Fragment = (Rule, &'static str, End);

macro_rules! fragments {
    ($($rule:ident $(($kind:ident))? $text:literal $end:expr;)*) => {
        &[$((Rule::$rule $((Kind::$kind))?, $text, $end)),*]
    };
}

// At the end of the first line, and at the first token of the second.
const ENDS_SHORT: End = End::Fault(Code::F03, 1);

const WRONG_BEHIND: End = End::Fault(Code::F03, 2);

const FRAGMENTS: &[Fragment] = fragments! {
    // ---- what is written is whole
    AnyItem "procedure P" ENDS_SHORT;
    AnyClause "with A" ENDS_SHORT;
    AnySpec "function F" ENDS_SHORT;
    AnyStmt "A := 1" ENDS_SHORT;
    AnyHead "while" ENDS_SHORT;
    AnyChoice "1 .." ENDS_SHORT;
    AnyArg "A =>" ENDS_SHORT;
    Of(Assert) "assert A" ENDS_SHORT;
    AnyTerm "" ENDS_SHORT;
    // ---- operators
    AnyExpr "A and B and C" End::Node(Kind::Binary);
    AnyExpr "A and (B or C)" End::Node(Kind::Binary);
    AnyExpr "A and then B\nand C" WRONG_BEHIND;
    AnyExpr "A or B\nor else C" WRONG_BEHIND;
    AnyExpr "A = B\n= C" WRONG_BEHIND;
    AnyExpr "A in B\nin C" WRONG_BEHIND;
    AnyExpr "A *\n-B" WRONG_BEHIND;
    AnyExpr "-\n-A" WRONG_BEHIND;
    AnyExpr "- abs A" End::Node(Kind::Unary);
    AnyExpr "abs\n-A" WRONG_BEHIND;
    AnyExpr "not\nnot A" WRONG_BEHIND;
    AnyExpr "A\n** B" End::Fault(Code::F23, 2);
    AnyExpr "A\n& B" End::Fault(Code::F23, 2);
    AnyTerm "A and\nthen B" WRONG_BEHIND;
    AnyTerm "A\nin B" WRONG_BEHIND;
    AnyTerm "A iff B\niff C" WRONG_BEHIND;
    AnyTerm "in A and\n;" WRONG_BEHIND;
    AnyTerm "A and\nfor all I in 1 .. 2 : B" WRONG_BEHIND;
    AnyTerm "in A\n(1)" WRONG_BEHIND;
    AnyTerm "(1\n, 2)" WRONG_BEHIND;
    // ---- what stands in parentheses: an expression, or an aggregate
    AnyExpr "(1, 2)" End::Node(Kind::Aggr);
    AnyExpr "(A => 1)" End::Node(Kind::Aggr);
    AnyExpr "(1)" End::Node(Kind::Int);
    AnyExpr "(1 .. 2\n)" WRONG_BEHIND;
    Of(Int) "\n(1)" WRONG_BEHIND;
    // ---- the bounds of a range are sums
    AnyDis "A + 1 .. -B" End::Node(Kind::Span);
    AnyDis "A\nand B .. C" WRONG_BEHIND;
    AnyDis "(A = B) .. C" End::Node(Kind::Span);
    AnyDis "1 .. 3\n.. 4" WRONG_BEHIND;
    Of(Range) "range 1 .. A\n= 2" WRONG_BEHIND;
    // Those of a quantifier are terms.
    AnyTerm "for all I in A + 1 .. B = C : D" End::Node(Kind::All);
    AnyTerm "for all I in A .. B\n.. C : D" WRONG_BEHIND;
    // ---- marks are names with dots between them
    AnyMark "\n(A)" WRONG_BEHIND;
    Of(Based) "based on A\n(1);" WRONG_BEHIND;
    // ---- words of annotations are words there alone
    AnyStmt "assert\nA;" WRONG_BEHIND;
    AnyStmt "--| assert A;" End::Node(Kind::Assert);
    AnyItem "\ntrait L is end trait;" WRONG_BEHIND;
    // The tokens of an annotation all stand in it.
    AnyStmt "--| assert A\n;" WRONG_BEHIND;
    AnyStmt "\n--| null;" WRONG_BEHIND;
    // In a text of an annotation its marks do no harm.
    Of(Assert) "--| assert A;" End::Node(Kind::Assert);
    AnyTerm "A\n--| = B" End::Node(Kind::Binary);
    // ---- the variables of a trait
    Of(Trait) "trait L is asserts for all X : INT end trait;" End::Node(Kind::Trait);
    Of(Trait) "trait L is asserts for all X in 1 .. 2 : X = X == TRUE; end trait;" End::Node(Kind::Trait);
    Of(Trait) "trait L is asserts\nend trait;" WRONG_BEHIND;
    Of(Trait) "trait L is implies\nend trait;" WRONG_BEHIND;
    // ---- the arguments of a proof step are those of its rule
    Of(Step) "hyp 1\n2" WRONG_BEHIND;
    Of(Step) "hyp\n[open]" WRONG_BEHIND;
    Of(Step) "all_goal\n1" WRONG_BEHIND;
    Of(Step) "unfold F in\nG" WRONG_BEHIND;
    Of(Step) "rewrite 1 in 2 [refl]" End::Node(Kind::Step);
    Of(Step) "lemma L\n[open]" WRONG_BEHIND;
    Of(Step) "lemma L.F (A = B, 1)" End::Node(Kind::Step);
    Of(Step) "lemma L.F\n.G" WRONG_BEHIND;
    Of(Step) "induct S (\n1)" WRONG_BEHIND;
    Of(Step) "linear (1,\nA)" WRONG_BEHIND;
    Of(Step) "linear (1,\n+1)" WRONG_BEHIND;
    Of(Step) "linear (\n)" WRONG_BEHIND;
    Of(Step) "linear" End::Node(Kind::Step);
    Of(Step) "cut A and\nthen B" WRONG_BEHIND;
    // A step by no rule has none.
    Of(Step) "wave" End::Node(Kind::Step);
    Of(Step) "wave\n1" WRONG_BEHIND;
    Of(Step) "open [open;\n]" WRONG_BEHIND;
    Of(Step) "open [\n]" WRONG_BEHIND;
    Of(Step) "\nif" WRONG_BEHIND;
    // ---- comments are at no fault
    Of(Handler) "-- why\nwhen others => null;" End::Node(Kind::Handler);
    AnyExpr "-- why\nA -- and\n-- no more" End::Node(Kind::Name);
    AnyStmt "null -- no more\n-- here\nnull;" End::Fault(Code::F03, 3);
    // ---- bytes and tokens come before all else
    AnyStmt "end\n\u{1}" End::Fault(Code::F01, 2);
    AnyTerm "end\nA__B" End::Fault(Code::F02, 2);
    AnyExpr "A\n# B" End::Fault(Code::F02, 2);
};

fn is_fragment_right(alloc: Global, row: &Fragment) -> Result<bool, Memory> {
    let (rule, text, end) = *row;
    let part = Part { rule, note: false };
    Ok(fragment_end(alloc, part, text.as_bytes())? == Some(end))
}

fn first_wrong_fragment(alloc: Global) -> Option<usize> {
    FRAGMENTS
        .iter()
        .position(|row| is_fragment_right(alloc, row) != Ok(true))
}

#[test]
fn texts_of_parts_are_read_or_have_their_fault(rt: HostRuntime) {
    assert_eq!(rt; first_wrong_fragment(rt.alloc()), None);
}
