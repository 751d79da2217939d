// The lines of a sequent.
ghost use Rattle.std.specs.Prelude.{◌≡◌, ◌++◌, IfOk, OnOk};
ghost use Rattle.std.specs.List.{flat_map};
ghost use Rattle.std.specs.Fmt.{decimal};
ghost use Rattle.tree_write.specs.SequentLines.{line_of, term_line, indentation, var_line, hyp_line, hyp_lines, sequent_lines};

use crate::page::Page;
use crate::steps::write_node;
use crate::tree::tree_of;
use ada_tree::{Choice, Node};
use base_kit::Memory;
use std::alloc::Global;
use term_core::{OpNames, Sequent, Term, Var};

fn write(out: &mut Vec<u8>, bytes: &[u8]) -> Result<(), Memory>
    ensures { OnOk result (out.new.items ≡ out.old.items ++ bytes.now) }
{
    out.extend_from_slice(bytes)?;
    Ok(())
}

// A term's tree, to the end of its line.
fn tree_line(alloc: Global, tree: &Node) -> Result<Vec<u8>, Memory>
    ensures { IfOk result (λ text. text.items ≡ line_of tree.now) }
{
    let mut page = Page::inside(alloc);
    write_node(alloc, &mut page, Choice::Expr, tree)?;
    page.into_bytes()
}

// A term, to the end of its line.
fn write_term(alloc: Global, out: &mut Vec<u8>, names: &OpNames, term: &Term) -> Result<(), Memory>
    ensures { OnOk result (out.new.items ≡ out.old.items ++ term_line names.now term.now) }
{
    let tree = tree_of(alloc, names, term)?;
    let line = tree_line(alloc, &tree)?;
    write(out, line.as_slice())
}

fn write_indentation(out: &mut Vec<u8>, columns: u32) -> Result<(), Memory>
    ensures { OnOk result (out.new.items ≡ out.old.items ++ indentation columns) }
{
    for _ in 0..columns {
        out.push(b' ')?;
    }
    Ok(())
}

fn write_var(out: &mut Vec<u8>, indent: u32, var: &Var) -> Result<(), Memory>
    ensures { OnOk result (out.new.items ≡ out.old.items ++ var_line indent var.now) }
{
    write_indentation(out, indent)?;
    write(out, b"var ")?;
    write(out, var.name.as_bytes())?;
    write(out, b" : ")?;
    write(out, var.label.as_bytes())?;
    write(out, b"\n")
}

fn write_vars(out: &mut Vec<u8>, indent: u32, vars: &[Var]) -> Result<(), Memory>
    ensures { OnOk result (out.new.items ≡ out.old.items ++ flat_map (var_line indent) vars.now) }
{
    for var in vars {
        write_var(out, indent, var)?;
    }
    Ok(())
}

fn write_hyp(
    alloc: Global,
    out: &mut Vec<u8>,
    indent: u32,
    names: &OpNames,
    number: usize,
    hyp: &Term,
) -> Result<(), Memory>
    ensures { OnOk result (out.new.items ≡ out.old.items ++ hyp_line indent names.now number hyp.now) }
{
    write_indentation(out, indent)?;
    write(out, b"hyp ")?;
    let digits = number.to_string(alloc)?;
    write(out, digits.as_bytes())?;
    write(out, b" : ")?;
    write_term(alloc, out, names, hyp)
}

fn write_hyps(
    alloc: Global,
    out: &mut Vec<u8>,
    indent: u32,
    names: &OpNames,
    hyps: &[Term],
) -> Result<(), Memory>
    ensures { OnOk result (out.new.items ≡ out.old.items ++ hyp_lines indent names.now 1 hyps.now) }
{
    for (i, hyp) in hyps.iter().enumerate() {
        write_hyp(alloc, out, indent, names, i + 1, hyp)?;
    }
    Ok(())
}

/// The lines of a sequent, each indented by so many blanks: its variables with their labels, its
/// hypotheses with their numbers, and its goal.
pub fn write_sequent(
    alloc: Global,
    sequent: &Sequent,
    names: &OpNames,
    indent: u32,
) -> Result<Vec<u8>, Memory>
    ensures { IfOk result (λ text. text.items ≡ sequent_lines indent names.now sequent.now) }
{
    let mut out = Vec::new(alloc);
    write_vars(&mut out, indent, sequent.vars.as_slice())?;
    write_hyps(alloc, &mut out, indent, names, sequent.hyps.as_slice())?;
    write_indentation(&mut out, indent)?;
    write(&mut out, b"goal ")?;
    write_term(alloc, &mut out, names, &sequent.goal)?;
    Ok(out)
}
