// Files that are read, written back, and read again.
ghost use Rattle.std.specs.Prelude.{◌≡◌, []};
ghost use Rattle.ada_tree.specs.declared.kind.Kind.TheVariants as kind;
ghost use Rattle.ada_tree.specs.Nodes.{node_of};

use ada_tree::{Doc, Kids, Kind, LINES, Node, same};
use base_kit::{Memory, Names, Stop, Text};
use std::alloc::Global;
use std::test::Fail;
use text_read::read_file;
use tree_write::write_doc;

fn root(alloc: Global, files: Kids) -> Node
    ensures { result ≡ node_of kind.Doc [] [] files }
{
    Node {
        kind: Kind::Doc,
        text: Text::from(Vec::new(alloc)),
        notes: Names::new(alloc),
        kids: files,
    }
}

// The document of this file alone.
fn read_doc(alloc: Global, bytes: &[u8]) -> Result<Option<Doc>, Memory> {
    if bytes.len() >= 1 << 32 {
        return Ok(None);
    }
    match read_file(alloc, bytes) {
        Ok(file) => {
            let mut files = Kids::new(alloc);
            files.push(file)?;
            Ok(Some(Doc {
                root: root(alloc, files),
            }))
        }
        Err(Stop::Memory) => Err(Memory),
        Err(Stop::Fault(_)) => Ok(None),
    }
}

// Whether the text is the document's, and no other text when it is read and written again.
fn is_text_of(alloc: Global, doc: &Doc, text: &[u8]) -> Result<bool, Memory> {
    let Some(other) = read_doc(alloc, text)? else {
        return Ok(false);
    };
    let again = write_doc(alloc, &other, 0)?;
    Ok(same(doc, &other) && again.as_slice() == text)
}

// ---- a file with a node of each kind, in its canonical text

const ALL_KINDS: &str = "\
with A, B;
use A;
package P is
   -- what a package declares
   type COLOR is (RED, GREEN);
   type VEC is array (1 .. 9) of INTEGER;
   type PAIR is record
      X, Y : INTEGER;
   end record;
   subtype SMALL is INTEGER range 0 .. 9;
   N : constant := 10;
   C : constant INTEGER := 1;
   V : Q.VEC;
   FULL : exception;
   type STACK is private;
   --| based on SEQ;
   procedure PUSH (S : in out STACK; E : in INTEGER);
   --| where
   --|    global in V;
   --|    in E > 0;
   --|    out S = CONS(E, in S);
   --|    raise FULL => E = 0;
   --| end where;
   function TOP (S : in STACK) return INTEGER;
   --| where
   --|    out return = HEAD(S);
   --| end where;
private
   type STACK is range 0 .. 9;
   --| view S of STACK is if S = 0 then NIL else CONS(S, NIL) invariant S >= 0;
end P;
package body P is
   procedure PUSH (S : in out STACK; E : in INTEGER) is
      A : VEC;
   begin
      null;
      A := (1 | 2 .. 3 => -1, others => 0);
      TOP(S);
      if E in 1 .. 9 then
         return;
      elsif E = 0 then
         raise FULL;
      else
         null;
      end if;
      case E is
         when 1 =>
            null;
         when others =>
            null;
      end case;
      while E > A'FIRST loop
         --| invariant for all I in 1 .. 9 : A(I) = 0;
         exit;
      end loop;
      for I in A'range loop
         null;
      end loop;
      for I in reverse 1 .. 3 loop
         null;
      end loop;
      declare
         T : INTEGER;
      begin
         null;
         exception
            when others =>
               raise;
      end;
      --| assert (exists I in 1 .. 9 : A(I) = 0) or (store(A, 1, 0) = A);
   end PUSH;
end P;
--| trait LISTS is
--|    includes BASE;
--|    introduces
--|       NIL : -> SEQ;
--|       CONS : INT, SEQ -> SEQ;
--|    generated SEQ by NIL, CONS;
--|    asserts for all S : SEQ
--|       HEAD(S) == 0;
--|    implies
--|       ZERO : HEAD(NIL) = 0;
--| end trait;
--| proof of P.PUSH.entry.1 is
--|    hyp 1 [open]
--| end proof;
--| orphan proof of LISTS.ZERO is
--|    open
--| end proof;
";

// Whether a node of the kind is among these and those below them.
fn has_kind(nodes: &[Node], kind: Kind) -> bool {
    for node in nodes {
        if node.kind == kind || has_kind(node.kids.as_slice(), kind) {
            return true;
        }
    }
    false
}

// How many of the kinds are there.
fn number_of_kinds(alloc: Global) -> Result<usize, Memory> {
    let Some(doc) = read_doc(alloc, ALL_KINDS.as_bytes())? else {
        return Ok(0);
    };
    let nodes = std::slice::from_ref(&doc.root);
    Ok(
        LINES
            .iter()
            .filter(|(kind, _)| has_kind(nodes, *kind))
            .count(),
    )
}

#[test]
fn a_file_has_each_kind(rt: HostRuntime) -> Result<(), Fail> {
    assert_eq!(rt; number_of_kinds(rt.alloc())?, 85);
    Ok(())
}

// ---- texts and what is written of them

const PRINTED: &[(&str, &str)] = &[
    (ALL_KINDS, ALL_KINDS),
    ("", ""),
    ("\n-- nothing yet  \n\n", "-- nothing yet\n"),
    // What may be left out is written, and nothing that is superfluous.
    (
        "procedure p (a, b : t; c : out t);",
        "procedure P (A, B : in T; C : out T);\n",
    ),
    (
        "procedure p is begin x := a + -b; y := (1); z := ((0_07)); end;",
        "procedure P is\nbegin\n   X := A + (-B);\n   Y := 1;\n   Z := 7;\nend P;\n",
    ),
    // Comments of the second handler, and behind it, are those of the statements before.
    (
        "procedure P is begin null;\nexception\n-- a\nwhen A => null; -- b\n-- c\nwhen B => null; -- d\nend P; -- e",
        "procedure P is\nbegin\n   null;\n   exception\n      -- a\n      when A =>\n         null;\n         -- b\n         -- c\n      when B =>\n         null;\n         -- d\nend P;\n-- e\n",
    ),
    // The same of the alternatives of a case.
    (
        "procedure P is begin case A is -- a\nwhen 1 => null; -- b\nwhen 2 => null; end case; -- c\nend P;",
        "procedure P is\nbegin\n   case A is\n      -- a\n      when 1 =>\n         null;\n         -- b\n      when 2 =>\n         null;\n   end case;\n   -- c\nend P;\n",
    ),
    // A comment inside a statement is the next one's.
    (
        "procedure P is begin X := 1 -- a\n + 2; Y := 3; end P;",
        "procedure P is\nbegin\n   X := 1 + 2;\n   -- a\n   Y := 3;\nend P;\n",
    ),
    // One inside an annotation goes to the end of the declarations, or to the item after.
    (
        "procedure P\n--| where in A = 1; -- a\n--| end where;\nis begin null; end P;",
        "procedure P\n--| where\n--|    in A = 1;\n--| end where;\nis\n   -- a\nbegin\n   null;\nend P;\n",
    ),
    (
        "--| trait L is -- a\n--| end trait; -- b\nprocedure P;",
        "--| trait L is\n--| end trait;\n-- a\n-- b\nprocedure P;\n",
    ),
];

fn is_printed(alloc: Global, row: &(&str, &str)) -> Result<bool, Memory> {
    let (text, printed) = *row;
    let Some(doc) = read_doc(alloc, text.as_bytes())? else {
        return Ok(false);
    };
    let bytes = write_doc(alloc, &doc, 0)?;
    Ok(bytes.as_slice() == printed.as_bytes() && is_text_of(alloc, &doc, bytes.as_slice())?)
}

// The number of the first row that is wrong.
fn first_misprinted(alloc: Global) -> Option<usize> {
    PRINTED
        .iter()
        .position(|row| is_printed(alloc, row) != Ok(true))
}

#[test]
fn files_are_written_back_and_read_again(rt: HostRuntime) {
    assert_eq!(rt; first_misprinted(rt.alloc()), None);
}
