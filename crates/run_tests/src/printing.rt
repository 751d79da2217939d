// What `print` prints.
use crate::running::{Files, NOTHING, SET, gives, run, run_files};
use base_kit::Memory;
use std::alloc::Global;

pub const SWAP: &str = "procedure swap(a,b:in out integer)
--| where out a = in b and b = in a; end where;
is t:constant integer:=a; begin a:=b; b:=t; end;
";

pub const SWAP_TEXT: &str = "procedure SWAP (A, B : in out INTEGER)
--| where
--|    out (A = in B) and (B = in A);
--| end where;
is
   T : constant INTEGER := A;
begin
   A := B;
   B := T;
end SWAP;
";

// A package with its body, a trait, a proof and comments, in loose layout.
const COUNTERS: &str = "-- Counters that stop at a limit.
--| trait COUNTS is introduces NEXT : INT -> INT;
--| asserts for all N : INT  NEXT(N) == N + 1;
--| implies for all N : INT  GROWS : N < NEXT(N); end trait;

package Counters is  limit: constant := 0_9;
   type count is range 0..limit;   full: exception;

   procedure step(c: in out count; by_two: boolean);
   --| where out by_two or C = NEXT(in C);   -- one step, or two
   --|       raise FULL => C = LIMIT; end where;
end;

package body COUNTERS is
   -- The counter stays as it is where it is full.
   procedure Step(C: in out Count; By_Two: in Boolean) is
   begin
      if c = limit then raise full;
      elsif by_two and then c < (limit - 1) then c := c + 2;
      else c := ((c) + 1);    -- the last step
      end if;
   end;
end Counters;

--| proof of COUNTS.GROWS is unfold NEXT [linear (1)] end proof;
";

const COUNTERS_TEXT: &str = "-- Counters that stop at a limit.
--| trait COUNTS is
--|    introduces
--|       NEXT : INT -> INT;
--|    asserts for all N : INT
--|       NEXT(N) == N + 1;
--|    implies for all N : INT
--|       GROWS : N < NEXT(N);
--| end trait;
package COUNTERS is
   LIMIT : constant := 9;
   type COUNT is range 0 .. LIMIT;
   FULL : exception;
   procedure STEP (C : in out COUNT; BY_TWO : in BOOLEAN);
   --| where
   --|    out BY_TWO or (C = NEXT(in C));
   --|    raise FULL => C = LIMIT;
   --| end where;
   -- one step, or two
end COUNTERS;
package body COUNTERS is
   -- The counter stays as it is where it is full.
   procedure STEP (C : in out COUNT; BY_TWO : in BOOLEAN) is
   begin
      if C = LIMIT then
         raise FULL;
      elsif BY_TWO and then (C < (LIMIT - 1)) then
         C := C + 2;
      else
         C := C + 1;
         -- the last step
      end if;
   end STEP;
end COUNTERS;
--| proof of COUNTS.GROWS is
--|    unfold NEXT [linear (1)]
--| end proof;
";

// A text, and its canonical text.
const TEXTS: &[(&str, &str)] = &[
    ("", ""),
    ("\t\r\n--|\n", ""),
    (SWAP, SWAP_TEXT),
    (COUNTERS, COUNTERS_TEXT),
    (
        SET,
        "procedure SET (X, Y : in out INTEGER)\n--| where\n--|    in Y = 3;\n--|    out X = 3;\n--|    out Y = in Y;\n--| end where;\nis\nbegin\n   X := Y;\nend SET;\n",
    ),
    // What is left out is written: modes, closing names; and what is superfluous isn't.
    (
        "PROCEDURE p(x:integer)is BEGIN x:=(((0_0_7)));END;",
        "procedure P (X : in INTEGER) is\nbegin\n   X := 7;\nend P;\n",
    ),
    // An operand that is no primary stands in parentheses, whatever its operator.
    (
        "procedure P is begin B := X in 1 .. 2 and not (Y in 3 .. 4); C := (X in 1 .. 2) = D; end;",
        "procedure P is\nbegin\n   B := (X in 1 .. 2) and (not (Y in 3 .. 4));\n   C := (X in 1 .. 2) = D;\nend P;\n",
    ),
    // Comments stand before their members.
    (
        "-- one\nprocedure P is -- two\nbegin -- three\n null; -- four  \n null; -- five\nend; -- six",
        "-- one\nprocedure P is\n   -- two\nbegin\n   -- three\n   null;\n   -- four\n   null;\n   -- five\nend P;\n-- six\n",
    ),
    // What `check` doesn't take, or what names nothing, is printed all the same.
    (
        "package Q is N : constant := 1; procedure R; end; procedure P is begin NOTHING := Q.M; end;",
        "package Q is\n   N : constant := 1;\n   procedure R;\nend Q;\nprocedure P is\nbegin\n   NOTHING := Q.M;\nend P;\n",
    ),
];

// (Printed again, a canonical text is the same.)
fn is_printed(alloc: Global, file: &str, text: &str) -> Result<bool, Memory> {
    let got = run(alloc, "print a", file.as_bytes(), &NOTHING)?;
    let again = run(alloc, "print a", got.text.as_slice(), &NOTHING)?;
    Ok(gives(&got, text, 0) && gives(&again, text, 0) && got.calls == 1)
}

// The number of the first row that is wrong.
fn first_misprinted(alloc: Global) -> Option<usize> {
    TEXTS
        .iter()
        .position(|(file, text)| is_printed(alloc, file, text) != Ok(true))
}

#[test]
fn files_are_printed(rt: HostRuntime) {
    assert_eq!(rt; first_misprinted(rt.alloc()), None);
}

// Words, files, what is printed, the status, and how many files were got.
pub struct Row {
    pub words: &'static str,
    pub files: Files,
    pub text: &'static str,
    pub status: u8,
    pub calls: u64,
}

const A: &str = "procedure A is begin null; end;";

const B: &str = "procedure B is begin null end;";

const SEVERAL: &[Row] = &[
    // One text after another, in the order of the words.
    Row {
        words: "print b a",
        files: &[("a", A), ("b", SWAP)],
        text: "procedure SWAP (A, B : in out INTEGER)\n--| where\n--|    out (A = in B) and (B = in A);\n--| end where;\nis\n   T : constant INTEGER := A;\nbegin\n   A := B;\n   B := T;\nend SWAP;\nprocedure A is\nbegin\n   null;\nend A;\n",
        status: 0,
        calls: 2,
    },
    Row {
        words: "print a c a2",
        files: &[("a", A), ("c", "-- alone"), ("a2", A)],
        text: "procedure A is\nbegin\n   null;\nend A;\n-- alone\nprocedure A is\nbegin\n   null;\nend A;\n",
        status: 0,
        calls: 3,
    },
    // A fault has the number of its file, and nothing is printed before it; the first file's comes first.
    Row {
        words: "print a b",
        files: &[("a", A), ("b", B)],
        text: "fault F03 file 2 line 1\n",
        status: 3,
        calls: 2,
    },
    Row {
        words: "print b c",
        files: &[("b", B), ("c", "\n#")],
        text: "fault F03 file 1 line 1\n",
        status: 3,
        calls: 2,
    },
    Row {
        words: "print c b",
        files: &[("b", B), ("c", "\n#")],
        text: "fault F02 file 1 line 2\n",
        status: 3,
        calls: 2,
    },
    Row {
        words: "print a c d",
        files: &[("a", A), ("c", ""), ("d", "\n\n\u{1}")],
        text: "fault F01 file 3 line 3\n",
        status: 3,
        calls: 3,
    },
    Row {
        words: "print a d",
        files: &[("a", A), ("d", "procedure P is begin pragma X; end P;")],
        text: "fault F23 file 2 line 1\n",
        status: 3,
        calls: 2,
    },
];

// Whether a run over several files is as the row says.
pub fn is_row(alloc: Global, row: &Row) -> Result<bool, Memory> {
    let got = run_files(alloc, row.words, row.files, &NOTHING)?;
    Ok(gives(&got, row.text, row.status) && got.calls == row.calls)
}

// The number of the first row that is wrong.
fn first_wrong(alloc: Global) -> Option<usize> {
    SEVERAL
        .iter()
        .position(|row| is_row(alloc, row) != Ok(true))
}

#[test]
fn several_files_are_printed_in_order(rt: HostRuntime) {
    assert_eq!(rt; first_wrong(rt.alloc()), None);
}
