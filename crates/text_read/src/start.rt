// With which symbols a text of a part is read whole.
ghost use Rattle.std.specs.Prelude.{◌≡◌, true, IfOk};
ghost use Rattle.ada_tree.specs.declared.grammar.Choice.TheVariants as choice;
ghost use Rattle.ada_tree.specs.Parts.{place_of};
ghost use Rattle.ada_tree.specs.Choices.{comments_of};
ghost use Rattle.ada_tree.specs.Kinds.{is_among};
ghost use Rattle.ada_tree.specs.Reading.{takes_comments, is_commented};
ghost use Rattle.ada_tree.specs.Spelling.{starts_with_comments};
ghost use Rattle.reading_table.specs.Rows.{placed};
ghost use Rattle.reading_table.specs.Starts.{start_line};
ghost use Rattle.text_read.specs.Fragments.{whole_line};

use ada_tree::{Choice, Kind, Rule};
use base_kit::Memory;
use reading_table::{Rule as TableRule, STARTS, Symbol};
use std::alloc::Global;

// With which symbols one node of the part is read.
fn start_line(rule: Rule) -> &'static [Symbol]
    ensures { result.now ≡ start_line (place_of rule) }
{
    match rule {
        Rule::Of(kind) => STARTS[kind as usize].1,
        Rule::AnyItem => &[Symbol::Part(TableRule::Item)],
        Rule::AnyClause => &[Symbol::Part(TableRule::Clause)],
        Rule::AnyLib => &[Symbol::Part(TableRule::Lib)],
        Rule::AnySpec => &[Symbol::Part(TableRule::Spec)],
        Rule::AnyMark => &[Symbol::Part(TableRule::Mark)],
        Rule::AnyDecl => &[Symbol::Part(TableRule::Decl)],
        Rule::AnyTdef => &[Symbol::Part(TableRule::Tdef)],
        Rule::AnyDis => &[Symbol::Part(TableRule::Dis)],
        Rule::AnyChoices => &[Symbol::Part(TableRule::Choices)],
        Rule::AnyChoice => &[Symbol::Part(TableRule::Choice)],
        Rule::AnyStmt => &[Symbol::Part(TableRule::Stmt)],
        Rule::AnyHead => &[Symbol::Part(TableRule::Head)],
        Rule::AnyExpr | Rule::AnyTerm => &[Symbol::Part(TableRule::Expr)],
        Rule::AnyPrimary => &[Symbol::Part(TableRule::Prefix)],
        Rule::AnyArg => &[Symbol::Part(TableRule::Arg)],
        Rule::AnyWclause => &[Symbol::Part(TableRule::Wclause)],
    }
}

fn is_among(kind: Kind, kinds: &[Kind]) -> bool
    ensures { result ≡ is_among kind kinds.now }
{
    kinds.iter().any(|other| kind == *other)
}

// A member of the kind takes the comments before it in its list.
fn is_commented(kind: Kind) -> bool
    ensures { result ≡ is_commented kind }
{
    is_among(kind, Choice::Item.kinds())
        || is_among(kind, Choice::Decl.kinds())
        || is_among(kind, Choice::Stmt.kinds())
}

// The first member of the kind does.
fn is_commented_first(kind: Kind) -> bool
    ensures { result ≡ starts_with_comments (comments_of (choice.Only kind)) true }
{
    matches!(kind, Kind::Handler | Kind::Alt)
}

// A node of the part takes the comments before it.
fn takes_comments(rule: Rule) -> bool
    ensures { result ≡ takes_comments (place_of rule) }
{
    match rule {
        Rule::AnyItem | Rule::AnyDecl | Rule::AnyStmt => true,
        Rule::Of(kind) => is_commented_first(kind) || is_commented(kind),
        _ => false,
    }
}

/// With which symbols a text of the part is read whole, with the comments before it where it takes them.
pub fn whole_line(alloc: Global, rule: Rule) -> Result<Vec<Symbol>, Memory>
    ensures { IfOk result (λ line. line.items ≡ whole_line rule) }
{
    let mut line = Vec::new(alloc);
    let commented = takes_comments(rule);
    if commented {
        line.push(Symbol::Notes)?;
    }
    line.extend_from_slice(start_line(rule))?;
    if commented {
        line.push(Symbol::Noted)?;
    }
    Ok(line)
}
