// Writing a node without recursion: what is still to be written is a stack of tasks.
ghost use Rattle.std.specs.Prelude.{◌≡◌, ◌+◌, ◌≤◌, ◌<◌, ◌∷◌, [], ◌++◌, false, OnOk};
ghost use Rattle.ada_tree.specs.declared.grammar.Choice.TheVariants.{Only};
ghost use Rattle.ada_tree.specs.declared.grammar.Shape.TheVariants.{One};
ghost use Rattle.ada_tree.specs.declared.operator.Level.TheVariants.{Sum};
ghost use Rattle.ada_tree.specs.Choices.{level_of};
ghost use Rattle.ada_tree.specs.Nodes.{notes_of};
ghost use Rattle.ada_tree.specs.Canonical.{is_compound, is_looser, is_wrapped, members, comment_lines, separated, argument_list, for_all};
ghost use Rattle.ada_tree.specs.declared.word.Mark.TheVariants as mark;
ghost use Rattle.ada_tree.specs.Tokens.{a_mark};
ghost use Rattle.ada_tree.specs.Items.{put};
ghost use Rattle.tree_write.specs.Ink.{ink_of, after, drawn};
ghost use Rattle.tree_write.specs.Tasks.{as_written, all_written, line_items, task_items, work_items, finished, node_cost, cost_of_all, line_cost, work_cost};

use crate::page::Page;
use ada_tree::{
    Argument, Choice, Kind, Level, Mark, Node, OperatorEntry, Piece, Shape, Word, line,
};
use base_kit::{Memory, Text};

/// A part of a text that is still to be written.
#[derive(Drop)]
pub enum Task<'a> {
    /// The line of a node from a piece on, with the kids from one on. The first field tells that a
    /// part is left out, up to its end.
    Line(bool, &'static [Piece], &'a Node, &'a [Node]),
    /// Members of a list, each on a line with its comments before it.
    Members(Choice, &'a [Node]),
    /// Members of a list, each after the mark.
    Marked(Choice, Mark, &'a [Node]),
    /// Arguments of a proof step.
    Arguments(&'static [Argument], &'a [Node]),
    /// A closing parenthesis.
    Close,
    /// The end of a line.
    Break,
    /// The comments at the end of a list.
    Comments(&'a [Text]),
}

// Whether a node of this kind stands in parentheses as an operand.
fn is_compound(kind: Kind) -> bool
    ensures { result ≡ is_compound kind }
{
    matches!(
        kind,
        Kind::Binary | Kind::Unary | Kind::Member | Kind::All | Kind::Exists | Kind::Cond
    )
}

// Whether an expression binds looser than a sum.
fn is_looser_than_sum(kind: Kind, text: &[u8]) -> bool
    ensures { result ≡ is_looser Sum (level_of kind text.now) }
{
    match kind {
        Kind::All | Kind::Exists | Kind::Cond => true,
        Kind::Binary | Kind::Unary | Kind::Member | Kind::Make => {
            match OperatorEntry::of(kind, text) {
                None => false,
                Some(entry) => entry.level < Level::Sum,
            }
        }
        _ => false,
    }
}

// Whether a node of this kind with this text is written in parentheses at this place.
fn is_wrapped(place: Choice, kind: Kind, text: &[u8]) -> bool
    ensures { result ≡ is_wrapped place kind text.now }
{
    match place {
        Choice::Operand(Level::Prefix) => is_compound(kind) || kind == Kind::Old,
        Choice::Operand(_) | Choice::Chain(_) => is_compound(kind),
        Choice::Bound => is_looser_than_sum(kind, text),
        _ => false,
    }
}

// A node's line is to be written.
fn push_line<'a>(work: &mut Vec<Task<'a>>, place: Choice, node: &'a Node) -> Result<(), Memory>
    ensures items { OnOk result (work_items work.new.items ≡ line_items place node.now ++ work_items work.old.items) }
    ensures cost { OnOk result (work_cost work.new.items ≡ work_cost work.old.items + line_cost place node.now) }
{
    let pieces = line(place, node.kind, node.text.as_bytes());
    work.push(Task::Line(false, pieces, node, node.kids.as_slice()))?;
    Ok(())
}

// A parenthesis opens, and is to be closed.
fn open_parenthesis(page: &mut Page, work: &mut Vec<Task<'_>>) -> Result<(), Memory>
    ensures written { OnOk result (ink_of page.new ≡ drawn (put (a_mark mark.Open)) (ink_of page.old)) }
    ensures items { OnOk result (work_items work.new.items ≡ put (a_mark mark.Close) ∷ work_items work.old.items) }
    ensures cost { OnOk result (work_cost work.new.items ≡ work_cost work.old.items + 1) }
{
    page.mark(Mark::Open)?;
    work.push(Task::Close)?;
    Ok(())
}

// A node begins, at a place.
#[tactic(auto, using(crate::proofs::Works::line_costs))]
pub fn open_node<'a>(
    page: &mut Page,
    work: &mut Vec<Task<'a>>,
    place: Choice,
    node: &'a Node,
) -> Result<(), Memory>
    ensures items { OnOk result (finished page.new work.new.items ≡ after ((as_written node.now).at (One place) ++ work_items work.old.items) (ink_of page.old)) }
    ensures cost { OnOk result (work_cost work.new.items + 16 ≤ work_cost work.old.items + node_cost node.now) }
{
    if is_wrapped(place, node.kind, node.text.as_bytes()) {
        open_parenthesis(page, work)?;
        return push_line(work, place, node);
    }
    push_line(work, place, node)
}

// Members with a mark between them.
fn open_separated<'a>(
    page: &mut Page,
    work: &mut Vec<Task<'a>>,
    place: Choice,
    mark: Mark,
    kids: &'a [Node],
) -> Result<(), Memory>
    ensures items { OnOk result (finished page.new work.new.items ≡ after (separated place mark (all_written kids.now) ++ work_items work.old.items) (ink_of page.old)) }
    ensures cost { OnOk result (work_cost work.new.items ≤ work_cost work.old.items + (1 + cost_of_all kids.now)) }
{
    let Some((kid, kids)) = kids.split_first() else {
        return Ok(());
    };
    work.push(Task::Marked(place, mark, kids))?;
    open_node(page, work, place, kid)
}

// A list of arguments in parentheses, and nothing where there are none.
pub fn open_argument_list<'a>(
    page: &mut Page,
    work: &mut Vec<Task<'a>>,
    place: Choice,
    kids: &'a [Node],
) -> Result<(), Memory>
    ensures items { OnOk result (finished page.new work.new.items ≡ after (argument_list place (all_written kids.now) ++ work_items work.old.items) (ink_of page.old)) }
    ensures cost { OnOk result (work_cost work.new.items < work_cost work.old.items + (1 + cost_of_all kids.now)) }
{
    let Some((kid, kids)) = kids.split_first() else {
        return Ok(());
    };
    open_parenthesis(page, work)?;
    work.push(Task::Marked(place, Mark::Comma, kids))?;
    open_node(page, work, place, kid)
}

// `for all` and variables, and nothing where there are none.
fn open_for_all<'a>(
    page: &mut Page,
    work: &mut Vec<Task<'a>>,
    kids: &'a [Node],
) -> Result<(), Memory>
    ensures items { OnOk result (finished page.new work.new.items ≡ after (for_all (all_written kids.now) ++ work_items work.old.items) (ink_of page.old)) }
    ensures cost { OnOk result (work_cost work.new.items ≤ work_cost work.old.items + (1 + cost_of_all kids.now)) }
{
    if kids.is_empty() {
        return Ok(());
    }
    page.word(Word::For)?;
    page.word(Word::All)?;
    open_separated(page, work, Choice::Only(Kind::Vars), Mark::Semicolon, kids)
}

// The members of a list, and the comments at its end.
#[tactic(auto, using(crate::proofs::Works::regroup))]
pub fn push_members<'a>(
    work: &mut Vec<Task<'a>>,
    place: Choice,
    list: &'a Node,
    kids: &'a [Node],
) -> Result<(), Memory>
    ensures items { OnOk result (work_items work.new.items ≡ (members place (all_written kids.now) ++ comment_lines (notes_of list.now)) ++ work_items work.old.items) }
    ensures cost { OnOk result (work_cost work.new.items ≤ work_cost work.old.items + (2 + cost_of_all kids.now)) }
{
    work.push(Task::Comments(list.notes.as_slice()))?;
    work.push(Task::Members(place, kids))?;
    Ok(())
}

// A kid begins.
pub fn open_kid<'a>(
    page: &mut Page,
    work: &mut Vec<Task<'a>>,
    shape: Shape,
    kid: &'a Node,
) -> Result<(), Memory>
    ensures items { OnOk result (finished page.new work.new.items ≡ after ((as_written kid.now).at shape ++ work_items work.old.items) (ink_of page.old)) }
    ensures cost { OnOk result (work_cost work.new.items + 16 ≤ work_cost work.old.items + node_cost kid.now) }
{
    let kids = kid.kids.as_slice();
    match shape {
        Shape::One(place) => open_node(page, work, place, kid),
        Shape::Any(place) => push_members(work, place, kid, kids),
        Shape::Many(place) => push_members(work, place, kid, kids),
        Shape::Listed(place, mark) => open_separated(page, work, place, mark, kids),
        Shape::MaybeListed(place, mark) => open_separated(page, work, place, mark, kids),
        Shape::ForAll => open_for_all(page, work, kids),
    }
}
