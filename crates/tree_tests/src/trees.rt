// What no clause says: that each call can succeed, that tables have the rows of the language, and how
// deep a tree may be.
ghost use Rattle.std.specs.Prelude.{◌≡◌, []};
ghost use Rattle.ada_tree.specs.declared.kind.Kind.TheVariants as kind;
ghost use Rattle.ada_tree.specs.Nodes.{node_of};

use ada_tree::{
    Argument, Choice, Comments, Counts, Doc, Kids, Kind, Level, Mark, Node, Operator,
    OperatorEntry, Piece, ProofRule, Side, Word, add_counts, arguments, at, counts, is_same, line,
    same,
};
use base_kit::{Copied, Memory, Names, Path, Text};
use std::alloc::Global;
use std::test::Fail;

fn text(alloc: Global, bytes: &[u8]) -> Result<Text, Memory> {
    Ok(Text::from(Vec::from_slice(alloc, bytes)?))
}

fn leaf(alloc: Global, kind: Kind, bytes: &[u8]) -> Result<Node, Memory> {
    Ok(Node {
        kind,
        text: text(alloc, bytes)?,
        notes: Names::new(alloc),
        kids: Kids::new(alloc),
    })
}

fn with_kid(mut node: Node, kid: Node) -> Result<Node, Memory> {
    node.kids.push(kid)?;
    Ok(node)
}

fn list_of(alloc: Global, node: Node) -> Result<Node, Memory> {
    with_kid(leaf(alloc, Kind::List, b"")?, node)
}

fn specification(alloc: Global) -> Result<Node, Memory> {
    with_kid(
        leaf(alloc, Kind::Proc, b"P")?,
        leaf(alloc, Kind::None, b"")?,
    )
}

fn statements(alloc: Global) -> Result<Node, Memory> {
    let statements = list_of(alloc, leaf(alloc, Kind::Null, b"")?)?;
    let sequence = with_kid(leaf(alloc, Kind::Seq, b"")?, statements)?;
    with_kid(sequence, leaf(alloc, Kind::None, b"")?)
}

// `procedure P is .. begin null; end P;` with these declarations.
fn procedure(alloc: Global, declarations: Node) -> Result<Node, Memory> {
    let body = with_kid(leaf(alloc, Kind::SubBody, b"P")?, specification(alloc)?)?;
    let body = with_kid(body, leaf(alloc, Kind::None, b"")?)?;
    let body = with_kid(body, declarations)?;
    with_kid(body, statements(alloc)?)
}

// A procedure, in whose declarations one stands, and so on, so often.
fn nested(alloc: Global, levels: u32) -> Result<Node, Memory> {
    let mut node = procedure(alloc, leaf(alloc, Kind::List, b"")?)?;
    for _ in 0..levels {
        node = procedure(alloc, list_of(alloc, node)?)?;
    }
    Ok(node)
}

// Each procedure has nine nodes, and the next one stands two levels deeper: a tree of 23,004 levels,
// more than any of 100,000 nodes has that the grammar allows. (The interpreter of `rt try` has too
// little stack for it.)
const LEVELS: u32 = 11_500;

fn count(node: &Node) -> Counts {
    let mut counts = Counts { tree: 0, proof: 0 };
    add_counts(std::slice::from_ref(node), &mut counts);
    counts
}

fn nested_is_counted(alloc: Global) -> Result<u64, Memory> {
    Ok(count(&nested(alloc, LEVELS)?).tree)
}

fn nested_is_copied(alloc: Global) -> Result<bool, Memory> {
    let node = nested(alloc, LEVELS)?;
    let copy = node.copy(alloc)?;
    Ok(is_same(&node, &copy))
}

fn nested_differs(alloc: Global) -> Result<bool, Memory> {
    let node = nested(alloc, LEVELS)?;
    let other = nested(alloc, LEVELS - 1)?;
    Ok(is_same(&node, &other))
}

#[test]
fn a_deep_tree_is_counted_copied_compared_and_dropped(rt: HostRuntime) -> Result<(), Fail> {
    let alloc = rt.alloc();
    assert_eq!(rt; nested_is_counted(alloc)?, 103_509);
    assert!(rt; nested_is_copied(alloc)?);
    assert!(rt; !nested_differs(alloc)?);
    Ok(())
}

fn empty_file(alloc: Global) -> Node
    ensures { result ≡ node_of kind.File [] [] [] }
{
    Node {
        kind: Kind::File,
        text: Text::from(Vec::new(alloc)),
        notes: Names::new(alloc),
        kids: Kids::new(alloc),
    }
}

pub fn document(alloc: Global, files: Kids) -> Node
    ensures { result ≡ node_of kind.Doc [] [] files }
{
    Node {
        kind: Kind::Doc,
        text: Text::from(Vec::new(alloc)),
        notes: Names::new(alloc),
        kids: files,
    }
}

// A document of an empty file, and one of two.
fn one_file(alloc: Global) -> Result<Doc, Memory> {
    let mut files = Kids::new(alloc);
    files.push(empty_file(alloc))?;
    Ok(Doc {
        root: document(alloc, files),
    })
}

fn two_files(alloc: Global) -> Result<Doc, Memory> {
    let mut files = Kids::new(alloc);
    files.push(empty_file(alloc))?;
    files.push(empty_file(alloc))?;
    Ok(Doc {
        root: document(alloc, files),
    })
}

fn kind_at(alloc: Global, doc: &Doc, path: &[u32]) -> Result<Option<Kind>, Memory> {
    let path = Path(Vec::from_slice(alloc, path)?);
    Ok(match at(doc, &path) {
        None => None,
        Some(node) => Some(node.kind),
    })
}

// A path in the document of two files, and the kind of the node there.
const PATHS: &[(&[u32], Option<Kind>)] = &[
    (&[], Some(Kind::Doc)),
    (&[1], Some(Kind::File)),
    (&[2], None),
    (&[1, 0], None),
];

// The number of the first row that is wrong.
fn first_astray(alloc: Global, doc: &Doc) -> Option<usize> {
    PATHS
        .iter()
        .position(|(path, kind)| kind_at(alloc, doc, path) != Ok(*kind))
}

fn two_files_are_walked(alloc: Global) -> Result<bool, Memory> {
    let doc = two_files(alloc)?;
    Ok(first_astray(alloc, &doc).is_none())
}

fn two_files_are_counted(alloc: Global) -> Result<bool, Memory> {
    Ok(counts(&two_files(alloc)?) == Counts { tree: 2, proof: 0 })
}

fn two_files_are_copied(alloc: Global) -> Result<bool, Memory> {
    let doc = two_files(alloc)?;
    Ok(same(&doc, &doc.copy(alloc)?))
}

fn one_file_is_another_document(alloc: Global) -> Result<bool, Memory> {
    let doc = two_files(alloc)?;
    Ok(!same(&doc, &one_file(alloc)?))
}

#[test]
fn a_document_is_walked_counted_copied_and_compared(rt: HostRuntime) -> Result<(), Fail> {
    let alloc = rt.alloc();
    assert!(rt; two_files_are_walked(alloc)?);
    assert!(rt; two_files_are_counted(alloc)?);
    assert!(rt; two_files_are_copied(alloc)?);
    assert!(rt; one_file_is_another_document(alloc)?);
    Ok(())
}

fn words_are_written() -> bool {
    Word::Procedure.text() == "procedure" && Word::Make.text() == "make"
}

fn marks_are_looked_up() -> bool {
    let found = Mark::of(b"==");
    Mark::Becomes.text() == ":=" && found == Some(Mark::DoubleEqual) && Mark::of(b"=!").is_none()
}

fn operators_are_written() -> bool {
    Operator::AndThen.text() == "and then" && Operator::Not.line().len() == 2
}

fn rules_are_looked_up() -> bool {
    let found = ProofRule::of(b"all_hyp");
    found == Some(ProofRule::AllHyp) && ProofRule::AllHyp.text() == "all_hyp"
}

fn rules_have_arguments() -> bool {
    let wanted = [Argument::Number, Argument::Term];
    ProofRule::AllHyp.arguments() == wanted.as_slice() && arguments(b"guess").is_empty()
}

#[test]
fn tables_are_looked_up(rt: HostRuntime) {
    assert!(rt; words_are_written());
    assert!(rt; marks_are_looked_up());
    assert!(rt; operators_are_written());
    assert!(rt; rules_are_looked_up());
    assert!(rt; rules_have_arguments());
}

fn minus_has_its_entry() -> bool {
    let minus = OperatorEntry {
        operator: Operator::Minus,
        kind: Kind::Unary,
        side: Side::Both,
        level: Level::Signed,
    };
    OperatorEntry::of(Kind::Unary, b"-") == Some(minus)
}

#[test]
fn operators_have_their_side_and_level(rt: HostRuntime) {
    assert!(rt; minus_has_its_entry());
    assert!(rt; OperatorEntry::of(Kind::Binary, b"**").is_none());
}

fn clauses_have_their_kinds() -> bool {
    Choice::Clause.kinds() == [Kind::With, Kind::Use].as_slice()
}

fn bounds_open_and_marks_do_not() -> bool {
    Choice::Bound.opens() && !Choice::Mark.opens()
}

fn iff_stands_in_annotations_alone() -> bool {
    let is_outside = Choice::Expr.admits(false, Kind::Binary, b"iff");
    !is_outside && Choice::Expr.admits(true, Kind::Binary, b"iff")
}

fn null_has_its_line() -> bool {
    let wanted = [Piece::Word(Word::Null), Piece::Mark(Mark::Semicolon)];
    line(Choice::Stmt, Kind::Null, b"") == wanted.as_slice()
}

#[test]
fn choices_admit_their_kinds(rt: HostRuntime) {
    assert!(rt; clauses_have_their_kinds());
    assert!(rt; Choice::Stmt.comments() == Comments::Each);
    assert!(rt; bounds_open_and_marks_do_not());
    assert!(rt; iff_stands_in_annotations_alone());
    assert!(rt; null_has_its_line());
}

// A statement with so many comments.
fn commented(alloc: Global, count: u32) -> Result<Node, Memory> {
    let mut node = leaf(alloc, Kind::Null, b"")?;
    for _ in 0..count {
        node.notes.push(text(alloc, b"-- one of many")?)?;
    }
    Ok(node)
}

fn comments_are_copied(alloc: Global) -> Result<bool, Memory> {
    let node = commented(alloc, 20_000)?;
    Ok(is_same(&node, &node.copy(alloc)?))
}

#[test]
fn many_comments_are_copied(rt: HostRuntime) -> Result<(), Fail> {
    assert!(rt; comments_are_copied(rt.alloc())?);
    Ok(())
}
