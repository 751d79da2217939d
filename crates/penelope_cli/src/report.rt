// The report of a unit.
ghost use Rattle.std.specs.Prelude.{◌≡◌, ◌++◌, OnOk, IfOk};
ghost use Rattle.std.specs.List.{flat_map};
ghost use Rattle.penelope_cli.specs.Report.{key_line, no_names, obligation_lines, report_of};

use crate::write::{write, write_number};
use base_kit::{Memory, Names, Text};
use std::alloc::Global;
use term_core::{Obligation, Obligations, OpNames};
use tree_write::write_sequent;

/// How many blanks the lines of a sequent are indented by.
const INDENT: u32 = 4;

fn write_key(alloc: Global, out: &mut Vec<u8>, obligation: &Obligation) -> Result<(), Memory>
    ensures { OnOk result (out.new.items ≡ out.old.items ++ key_line obligation.now) }
{
    write(out, b"  ")?;
    write(out, obligation.cut.as_bytes())?;
    write(out, b".")?;
    write_number(alloc, out, u64::from(obligation.ordinal))?;
    write(out, b" open\n")
}

// No term has an operator, a type or a component with a name yet.
fn no_names(alloc: Global) -> OpNames
    ensures { result ≡ no_names }
{
    OpNames {
        ops: Names::new(alloc),
        types: Names::new(alloc),
        parts: Names::new(alloc),
    }
}

fn write_obligation(alloc: Global, out: &mut Vec<u8>, obligation: &Obligation) -> Result<(), Memory>
    ensures { OnOk result (out.new.items ≡ out.old.items ++ obligation_lines obligation.now) }
{
    write_key(alloc, out, obligation)?;
    let lines = write_sequent(alloc, &obligation.sequent, &no_names(alloc), INDENT)?;
    write(out, lines.as_slice())
}

fn write_obligations(
    alloc: Global,
    out: &mut Vec<u8>,
    obligations: &[Obligation],
) -> Result<(), Memory>
    ensures { OnOk result (out.new.items ≡ out.old.items ++ flat_map obligation_lines obligations.now) }
{
    for obligation in obligations {
        write_obligation(alloc, out, obligation)?;
    }
    Ok(())
}

/// The report of a unit of this name, none of whose obligations is proved.
pub fn report(alloc: Global, name: &Text, obligations: &Obligations) -> Result<Text, Memory>
    ensures { IfOk result (λ text. text ≡ report_of name.now obligations.now) }
{
    let mut out = Vec::new(alloc);
    write(&mut out, b"unit ")?;
    write(&mut out, name.as_bytes())?;
    write(&mut out, b" incomplete\n")?;
    write_obligations(alloc, &mut out, obligations.as_slice())?;
    Ok(Text::from(out))
}
