// What `check` prints of one file.
use crate::running::{NOTHING, SET, SET_REPORT, gives, run};
use base_kit::Memory;
use std::alloc::Global;
use std::test::Fail;

// ---- files

// A file, and its report.
const FILES: &[(&str, &str)] = &[
    ("", ""),
    ("\t\r\n -- a comment\n--|\n", ""),
    (SET, SET_REPORT),
    // Without a where block the goal is true.
    (
        "procedure SET (X, Y : in out INTEGER)\n\nis begin X := Y; end SET;\n",
        "unit SET incomplete\n  entry.1 open\n    var X : INTEGER\n    var Y : INTEGER\n    goal true\n",
    ),
    // An annotation over many lines, with comments between, in mixed case, in lines that end by CR LF.
    (
        "Procedure Set(x:In Out Integer;Y:in out integer)--|Where\r\n--| in y = -- so\r\n-- and\r\n--| 0_0_3;out x=3;--|no\r\n--|out Y = in Y\r\n--|;end where;\r\nIs Begin x:=y;End;",
        SET_REPORT,
    ),
    // Assignments go in order; a conjunction associates to the left.
    (
        "procedure P (X, Y : in out INTEGER)\n--| where out X = in Y; out Y = in Y; out in X = 2147483647; end where;\nis begin null; X := Y; Y := X; end;",
        "unit P incomplete\n  entry.1 open\n    var X : INTEGER\n    var Y : INTEGER\n    goal ((Y = Y) and (Y = Y)) and (X = 2147483647)\n",
    ),
    // In Ada text `where` is an identifier; an in clause speaks of the entry.
    (
        "procedure P (WHERE, X : in out INTEGER)\n--| where in X = X; end where;\nis begin WHERE := 007; X := WHERE; end P;",
        "unit P incomplete\n  entry.1 open\n    var WHERE : INTEGER\n    var X : INTEGER\n    hyp 1 : X = X\n    goal true\n",
    ),
    // What spells the same tree is the same: parentheses, comments, the name at the end.
    (
        "procedure SET (X, Y : in out INTEGER)\n--| where in (Y) = 3; out (X = 3); out Y = (in Y); end where;\nis begin X := ((((((((((((((((((((((((((((((((((((((((((((((((((((((((((((((((Y)))))))))))))))))))))))))))))))))))))))))))))))))))))))))))))))); -- so\nend;",
        SET_REPORT,
    ),
];

fn is_reported(alloc: Global, file: &str, text: &str) -> Result<bool, Memory> {
    let got = run(alloc, "check a", file.as_bytes(), &NOTHING)?;
    Ok(gives(&got, text, 0) && got.calls == 1)
}

// The number of the first row that is wrong.
fn first_misreported(alloc: Global) -> Option<usize> {
    FILES
        .iter()
        .position(|(file, text)| is_reported(alloc, file, text) != Ok(true))
}

#[test]
fn files_are_reported(rt: HostRuntime) {
    assert_eq!(rt; first_misreported(rt.alloc()), None);
}

// The line of a file whose first item isn't taken.
const UNSUPPORTED: &str = "fault F23 at 0.0\n";

// A file, and the line of its fault.
const FAULTY_FILES: &[(&str, &str)] = &[
    (
        "procedure SET (X, Y : in out INTEGER)\n--| where in Y = 3; out X = 3; out Y = in Y; end where;\nis begin X := Z; end SET;\n",
        UNSUPPORTED,
    ),
    (
        "procedure SET (X, Y : in out INTEGER)\n--| where in Y = 3; out X = 3; out Y = in Y; end where;\nis begin X := Y + 1; end SET;\n",
        UNSUPPORTED,
    ),
    (
        "procedure SET (X, Y : in out INTEGER)\n--| where in Y = 3; out X = 3; out Y = in Y; end where;\nis begin",
        "fault F03 file 1 line 3\n",
    ),
    (
        "procedure P (X, X : in out INTEGER) is begin null; end;",
        UNSUPPORTED,
    ),
    (
        "procedure P (X : in out INTEGER; x : in out INTEGER) is begin null; end;",
        UNSUPPORTED,
    ),
    (
        "procedure P (INTEGER : in out INTEGER) is begin null; end;",
        UNSUPPORTED,
    ),
    (
        "procedure P (X : in out NATURAL) is begin null; end;",
        UNSUPPORTED,
    ),
    (
        "procedure P (X : in INTEGER) is begin null; end;",
        UNSUPPORTED,
    ),
    (
        "procedure P (X : in out INTEGER) is begin Y := 1; end;",
        UNSUPPORTED,
    ),
    (
        "procedure P (X : in out INTEGER) is begin end;",
        "fault F03 file 1 line 1\n",
    ),
    (
        "procedure P (X : in out INTEGER) is begin null; end Q;",
        "fault F03 file 1 line 1\n",
    ),
    (
        "procedure P (X : in out INTEGER) is begin null; end; null",
        "fault F03 file 1 line 1\n",
    ),
    (
        "procedure P (X : in out INTEGER) is begin X := 2147483648; end;",
        UNSUPPORTED,
    ),
    (
        "procedure P (X : in out INTEGER) is begin X := 0000000000000000001; end;",
        "fault F02 file 1 line 1\n",
    ),
    (
        "procedure P (X : in out INTEGER) is begin X := 1__0; end;",
        "fault F02 file 1 line 1\n",
    ),
    (
        "procedure P (X : in out INTEGER) is begin X := 1_; end;",
        "fault F02 file 1 line 1\n",
    ),
    (
        "procedure P (X : in out INTEGER) is begin X : = 1; end;",
        "fault F03 file 1 line 1\n",
    ),
    (
        "procedure P (X_ : in out INTEGER) is begin null; end;",
        "fault F02 file 1 line 1\n",
    ),
    (
        "procedure P (_X : in out INTEGER) is begin null; end;",
        "fault F02 file 1 line 1\n",
    ),
    (
        "procedure P (LOOP : in out INTEGER) is begin null; end;",
        "fault F03 file 1 line 1\n",
    ),
    (
        "procedure P () is begin null; end;",
        "fault F03 file 1 line 1\n",
    ),
    (
        "procedure P (X : in out INTEGER) where end where; is begin null; end;",
        "fault F03 file 1 line 1\n",
    ),
    (
        "procedure P (X : in out INTEGER)\n--| is begin null; end;",
        "fault F03 file 1 line 2\n",
    ),
    (
        "procedure P (X : in out INTEGER)\n--| where in in X = 1; end where;\nis begin null; end;",
        UNSUPPORTED,
    ),
    (
        "procedure P (X : in out INTEGER)\n--| where out X == 1; end where;\nis begin null; end;",
        "fault F03 file 1 line 2\n",
    ),
    (
        "procedure P (X : in out INTEGER)\n--| where out X = Y; end where;\nis begin null; end;",
        UNSUPPORTED,
    ),
    (
        "procedure P (X : in out INTEGER)\n--| where out X = 1; end;\nis begin null; end;",
        "fault F03 file 1 line 2\n",
    ),
    (
        "procedure P (X : in out INTEGER) is begin null; end;\n--| where end where;",
        "fault F03 file 1 line 2\n",
    ),
    ("\u{1}", "fault F01 file 1 line 1\n"),
    ("#", "fault F02 file 1 line 1\n"),
    ("-", "fault F03 file 1 line 1\n"),
    // So many parentheses can be open, and no more.
    (
        "procedure P (X : in out INTEGER) is\nbegin\n   X := (((((((((((((((((((((((((((((((((((((((((((((((((((((((((((((((((X)))))))))))))))))))))))))))))))))))))))))))))))))))))))))))))))));\nend;",
        "fault F04 file 1 line 3\n",
    ),
    // A form of Ada outside the profile.
    (
        "\ngeneric\n   type T is private;\nprocedure P;\n",
        "fault F23 file 1 line 2\n",
    ),
    // Items of another form: a package, a declaration; and a second item.
    ("package P is\n   N : constant := 1;\nend P;\n", UNSUPPORTED),
    ("procedure P (X : in out INTEGER);\n", UNSUPPORTED),
    (
        "procedure P (X : in out INTEGER) is begin null; end;\nprocedure Q (X : in out INTEGER) is begin null; end;\n",
        "fault F23 at 0.1\n",
    ),
    // The first item that isn't taken counts, and a fault of the text before any item.
    (
        "package P is\nend P;\nprocedure Q (X : in out INTEGER) is begin null; end;\n",
        UNSUPPORTED,
    ),
    (
        "package P is\nend P;\nprocedure Q (X : in out INTEGER) is begin null end;\n",
        "fault F03 file 1 line 3\n",
    ),
];

fn has_fault(alloc: Global, file: &str, line: &str) -> Result<bool, Memory> {
    let got = run(alloc, "check a", file.as_bytes(), &NOTHING)?;
    Ok(gives(&got, line, 3) && got.calls == 1)
}

// The number of the first row that is wrong.
fn first_without_its_fault(alloc: Global) -> Option<usize> {
    FAULTY_FILES
        .iter()
        .position(|(file, line)| has_fault(alloc, file, line) != Ok(true))
}

#[test]
fn faulty_files_have_their_line(rt: HostRuntime) {
    assert_eq!(rt; first_without_its_fault(rt.alloc()), None);
}

// ---- limits

fn blank_file_gives(alloc: Global, length: usize, text: &str, status: u8) -> Result<bool, Memory> {
    let file = vec![in alloc; b' '; length]?;
    let got = run(alloc, "check a", file.as_slice(), &NOTHING)?;
    Ok(gives(&got, text, status))
}

#[test]
fn a_file_has_its_limit(rt: HostRuntime) -> Result<(), Fail> {
    let alloc = rt.alloc();
    assert!(rt; blank_file_gives(alloc, 4_194_304, "", 0)?);
    assert!(rt; blank_file_gives(alloc, 4_194_305, "too long a\n", 3)?);
    Ok(())
}

fn add_formals(alloc: Global, text: &mut String, formals: u32) -> Result<(), Memory> {
    for i in 1..formals {
        text.push_str(format!(in alloc; ", F{i}")?.as_str())?;
    }
    Ok(())
}

fn add_clauses(alloc: Global, text: &mut String, clauses: u32) -> Result<(), Memory> {
    for i in 0..clauses {
        text.push_str(format!(in alloc; "\n--|    out F0 = {i};")?.as_str())?;
    }
    Ok(())
}

fn add_statements(alloc: Global, text: &mut String, statements: u32) -> Result<(), Memory> {
    for i in 0..statements {
        text.push_str(format!(in alloc; " F0 := {i};")?.as_str())?;
    }
    Ok(())
}

// A procedure with so many formals, clauses and statements.
fn large(alloc: Global, formals: u32, clauses: u32, statements: u32) -> Result<String, Memory> {
    let mut text = String::from_str(alloc, "procedure P (F0")?;
    add_formals(alloc, &mut text, formals)?;
    text.push_str(" : in out INTEGER)\n--| where")?;
    add_clauses(alloc, &mut text, clauses)?;
    text.push_str("\n--| end where;\nis begin")?;
    add_statements(alloc, &mut text, statements)?;
    text.push_str(" end P;")?;
    Ok(text)
}

// The status of a run over such a procedure.
fn large_status(alloc: Global, formals: u32, clauses: u32, statements: u32) -> Result<u8, Memory> {
    let file = large(alloc, formals, clauses, statements)?;
    Ok(run(alloc, "check a", file.as_bytes(), &NOTHING)?.status)
}

// Whether a report of the largest procedure ends with this.
fn largest_ends_with(alloc: Global, text: &str) -> Result<bool, Memory> {
    let file = large(alloc, 64, 64, 1000)?;
    let got = run(alloc, "check a", file.as_bytes(), &NOTHING)?;
    Ok(got.text.ends_with(text.as_bytes()))
}

#[test]
fn counts_have_their_limits(rt: HostRuntime) -> Result<(), Fail> {
    let alloc = rt.alloc();
    assert_eq!(rt; large_status(alloc, 64, 64, 1000)?, 0);
    assert_eq!(rt; large_status(alloc, 65, 64, 1000)?, 3);
    assert_eq!(rt; large_status(alloc, 64, 65, 1000)?, 3);
    assert_eq!(rt; large_status(alloc, 64, 64, 1001)?, 3);
    assert_eq!(rt; large_status(alloc, 1, 0, 1)?, 0);
    assert!(rt; largest_ends_with(alloc, ") and (999 = 63)\n")?);
    Ok(())
}

// A procedure whose formal has so long a name.
fn named(alloc: Global, length: u32) -> Result<String, Memory> {
    let mut file = String::from_str(alloc, "procedure P (")?;
    for _ in 0..length {
        file.push_str("A")?;
    }
    file.push_str(" : in out INTEGER) is begin null; end;")?;
    Ok(file)
}

fn named_status(alloc: Global, length: u32) -> Result<u8, Memory> {
    let file = named(alloc, length)?;
    Ok(run(alloc, "check a", file.as_bytes(), &NOTHING)?.status)
}

#[test]
fn identifiers_have_their_limit(rt: HostRuntime) -> Result<(), Fail> {
    let alloc = rt.alloc();
    assert_eq!(rt; named_status(alloc, 120)?, 0);
    assert_eq!(rt; named_status(alloc, 121)?, 3);
    Ok(())
}
