// One task after another.
ghost use Rattle.std.specs.Prelude.{◌≡◌, ◌+◌, ◌<◌, ◌≤◌, ◌∷◌, [], ◌++◌, length, false, OnOk};
ghost use Rattle.ada_tree.specs.declared.grammar.Shape.TheVariants.{One};
ghost use Rattle.ada_tree.specs.declared.grammar.Piece.TheVariants.{Kid, Arguments};
ghost use Rattle.ada_tree.specs.Nodes.{text_of, notes_of};
ghost use Rattle.ada_tree.specs.Items.{line_break};
ghost use Rattle.ada_tree.specs.Rules.{arguments_of};
ghost use Rattle.ada_tree.specs.Canonical.{written_line, members, marked, arguments, comment_lines, is_left_out, are_bare};
ghost use Rattle.tree_write.specs.Ink.{ink_of, after};
ghost use Rattle.tree_write.specs.Tasks.{as_written, all_written, one_argument, piece_items, part_items, task_items, work_items, finished, node_cost, cost_of_all, task_cost, work_cost};

use crate::own::write_own;
use crate::page::Page;
use crate::work::{Task, open_argument_list, open_kid, open_node, push_members};
use ada_tree::{Argument, Choice, Kind, Mark, Node, Piece, Shape, Word, arguments};
use base_kit::Memory;
use std::alloc::Global;

// The other members of a list come on the next lines.
fn push_next<'a>(work: &mut Vec<Task<'a>>, place: Choice, nodes: &'a [Node]) -> Result<(), Memory>
    ensures items { OnOk result (work_items work.new.items ≡ line_break ∷ (members place (all_written nodes.now) ++ work_items work.old.items)) }
    ensures cost { OnOk result (work_cost work.new.items ≡ work_cost work.old.items + (2 + cost_of_all nodes.now)) }
{
    work.push(Task::Members(place, nodes))?;
    work.push(Task::Break)?;
    Ok(())
}

// A member of a list begins, with its comments before it.
#[tactic(auto, using(crate::proofs::Inks::items_written))]
fn open_member<'a>(
    page: &mut Page,
    work: &mut Vec<Task<'a>>,
    place: Choice,
    node: &'a Node,
) -> Result<(), Memory>
    ensures items { OnOk result (finished page.new work.new.items ≡ after (comment_lines (as_written node.now).notes ++ ((as_written node.now).at (One place) ++ work_items work.old.items)) (ink_of page.old)) }
    ensures cost { OnOk result (work_cost work.new.items + 16 ≤ work_cost work.old.items + node_cost node.now) }
{
    page.comments(node.notes.as_slice())?;
    open_node(page, work, place, node)
}

// The next member of a list, on a line with its comments before it.
#[tactic(auto, using(crate::proofs::Works::regroup))]
fn step_members<'a>(
    page: &mut Page,
    work: &mut Vec<Task<'a>>,
    place: Choice,
    nodes: &'a [Node],
) -> Result<(), Memory>
    ensures items { OnOk result (finished page.new work.new.items ≡ after (members place (all_written nodes.now) ++ work_items work.old.items) (ink_of page.old)) }
    ensures cost { OnOk result (work_cost work.new.items < work_cost work.old.items + (1 + cost_of_all nodes.now)) }
{
    let Some((node, nodes)) = nodes.split_first() else {
        return Ok(());
    };
    push_next(work, place, nodes)?;
    open_member(page, work, place, node)
}

// The next member of a list, after the mark.
fn step_marked<'a>(
    page: &mut Page,
    work: &mut Vec<Task<'a>>,
    place: Choice,
    mark: Mark,
    nodes: &'a [Node],
) -> Result<(), Memory>
    ensures items { OnOk result (finished page.new work.new.items ≡ after (marked place mark (all_written nodes.now) ++ work_items work.old.items) (ink_of page.old)) }
    ensures cost { OnOk result (work_cost work.new.items < work_cost work.old.items + (1 + cost_of_all nodes.now)) }
{
    let Some((node, nodes)) = nodes.split_first() else {
        return Ok(());
    };
    page.mark(mark)?;
    work.push(Task::Marked(place, mark, nodes))?;
    open_node(page, work, place, node)
}

// An argument at this place, and then the others.
fn open_argument<'a>(
    page: &mut Page,
    work: &mut Vec<Task<'a>>,
    place: Choice,
    line: &'static [Argument],
    nodes: &'a [Node],
) -> Result<(), Memory>
    ensures items { OnOk result (finished page.new work.new.items ≡ after (one_argument place line.now (all_written nodes.now) ++ work_items work.old.items) (ink_of page.old)) }
    ensures cost { OnOk result (work_cost work.new.items < work_cost work.old.items + (1 + cost_of_all nodes.now)) }
{
    let Some((node, nodes)) = nodes.split_first() else {
        return Ok(());
    };
    work.push(Task::Arguments(line, nodes))?;
    open_node(page, work, place, node)
}

// The next argument of a proof step, which may be all that are left.
fn step_arguments<'a>(
    page: &mut Page,
    work: &mut Vec<Task<'a>>,
    line: &'static [Argument],
    nodes: &'a [Node],
) -> Result<(), Memory>
    ensures items { OnOk result (finished page.new work.new.items ≡ after (arguments line.now (all_written nodes.now) ++ work_items work.old.items) (ink_of page.old)) }
    ensures cost { OnOk result (work_cost work.new.items < work_cost work.old.items + (1 + cost_of_all nodes.now)) }
{
    let Some((argument, line)) = line.split_first() else {
        return Ok(());
    };
    if nodes.is_empty() {
        return Ok(());
    }
    match *argument {
        Argument::Names => open_argument_list(page, work, Choice::Only(Kind::Name), nodes),
        Argument::Terms => open_argument_list(page, work, Choice::Expr, nodes),
        Argument::Coefficients => open_argument_list(page, work, Choice::Coefficient, nodes),
        Argument::InNumber => {
            page.word(Word::In)?;
            open_argument(page, work, Choice::Only(Kind::Int), line, nodes)
        }
        Argument::Number => open_argument(page, work, Choice::Only(Kind::Int), line, nodes),
        Argument::Name => open_argument(page, work, Choice::Only(Kind::Name), line, nodes),
        Argument::LemmaName => open_argument(page, work, Choice::LemmaName, line, nodes),
        Argument::Term => open_argument(page, work, Choice::Expr, line, nodes),
    }
}

// The rest of a node's line is to be written.
fn push_rest<'a>(
    work: &mut Vec<Task<'a>>,
    skip: bool,
    pieces: &'static [Piece],
    node: &'a Node,
    kids: &'a [Node],
) -> Result<(), Memory>
    ensures items { OnOk result (work_items work.new.items ≡ written_line skip pieces.now (text_of node.now) (notes_of node.now) (all_written kids.now) ++ work_items work.old.items) }
    ensures cost { OnOk result (work_cost work.new.items ≡ work_cost work.old.items + (3 + length pieces.now + cost_of_all kids.now)) }
{
    work.push(Task::Line(skip, pieces, node, kids))?;
    Ok(())
}

// A piece that is written by itself. The others write nothing here.
fn write_piece(page: &mut Page, piece: Piece, text: &[u8]) -> Result<(), Memory>
    ensures { OnOk result (ink_of page.new ≡ after (piece_items piece text.now) (ink_of page.old)) }
{
    match piece {
        Piece::Word(word) => page.word(word),
        Piece::Mark(mark) => page.mark(mark),
        Piece::Own(own) => write_own(page, own, text),
        Piece::Indent => page.indent(),
        Piece::Outdent => page.outdent(),
        Piece::NoteOn => page.note_on(),
        Piece::NoteOff => page.note_off(),
        Piece::Glue => {
            page.glue();
            Ok(())
        }
        Piece::Kid(_)
        | Piece::Members(_)
        | Piece::Arguments
        | Piece::Option
        | Piece::Shown(_)
        | Piece::End => Ok(()),
    }
}

// Whether the kid that comes next is left out.
fn is_left_out(kids: &[Node]) -> bool
    ensures { result ≡ is_left_out (all_written kids.now) }
{
    match kids.first() {
        None => true,
        Some(kid) => kid.kind == Kind::None,
    }
}

// Whether a node has no members.
fn is_bare(node: &Node) -> bool
    ensures { result ≡ (as_written node.now).is_bare }
{
    match node.kids.as_slice().first() {
        None => true,
        Some(_) => false,
    }
}

// Whether the next so many kids are there, and have no members.
#[tactic(auto, using(crate::proofs::Works::bare_more, crate::proofs::Works::bare_nowhere))]
fn are_bare(count: usize, kids: &[Node]) -> bool
    ensures { result ≡ are_bare count (all_written kids.now) }
{
    if count == 0 {
        return true;
    }
    match kids.split_first() {
        None => false,
        Some((kid, kids)) => is_bare(kid) && are_bare(count - 1, kids),
    }
}

// The kid that comes next begins.
fn step_kid<'a>(
    page: &mut Page,
    work: &mut Vec<Task<'a>>,
    shape: Shape,
    pieces: &'static [Piece],
    node: &'a Node,
    kids: &'a [Node],
) -> Result<(), Memory>
    ensures items { OnOk result (finished page.new work.new.items ≡ after (written_line false (Kid shape ∷ pieces.now) (text_of node.now) (notes_of node.now) (all_written kids.now) ++ work_items work.old.items) (ink_of page.old)) }
    ensures cost { OnOk result (work_cost work.new.items < work_cost work.old.items + (4 + length pieces.now + cost_of_all kids.now)) }
{
    let Some((kid, kids)) = kids.split_first() else {
        return Ok(());
    };
    push_rest(work, false, pieces, node, kids)?;
    open_kid(page, work, shape, kid)
}

fn push_list<'a>(
    work: &mut Vec<Task<'a>>,
    line: &'static [Argument],
    nodes: &'a [Node],
) -> Result<(), Memory>
    ensures items { OnOk result (work_items work.new.items ≡ arguments line.now (all_written nodes.now) ++ work_items work.old.items) }
    ensures cost { OnOk result (work_cost work.new.items ≡ work_cost work.old.items + (1 + cost_of_all nodes.now)) }
{
    work.push(Task::Arguments(line, nodes))?;
    Ok(())
}

// The arguments of a proof step by this rule.
#[tactic(auto, using(crate::proofs::Works::node_costs))]
fn push_rule<'a>(work: &mut Vec<Task<'a>>, rule: &[u8], list: &'a Node) -> Result<(), Memory>
    ensures items { OnOk result (work_items work.new.items ≡ (as_written list.now).as_arguments (arguments_of rule.now) ++ work_items work.old.items) }
    ensures cost { OnOk result (work_cost work.new.items < work_cost work.old.items + node_cost list.now) }
{
    push_list(work, arguments(rule), list.kids.as_slice())
}

// The arguments of a proof step begin.
#[tactic(auto, using(crate::proofs::Works::regroup))]
fn push_arguments<'a>(
    work: &mut Vec<Task<'a>>,
    pieces: &'static [Piece],
    node: &'a Node,
    kids: &'a [Node],
) -> Result<(), Memory>
    ensures items { OnOk result (work_items work.new.items ≡ written_line false (Arguments ∷ pieces.now) (text_of node.now) (notes_of node.now) (all_written kids.now) ++ work_items work.old.items) }
    ensures cost { OnOk result (work_cost work.new.items < work_cost work.old.items + (4 + length pieces.now + cost_of_all kids.now)) }
{
    let Some((list, kids)) = kids.split_first() else {
        return Ok(());
    };
    push_rest(work, false, pieces, node, kids)?;
    push_rule(work, node.text.as_bytes(), list)
}

// A part of a line begins, which has so many kids and may be left out.
#[tactic(auto, using(crate::proofs::Works::dropped_costs))]
fn push_part<'a>(
    work: &mut Vec<Task<'a>>,
    is_out: bool,
    count: usize,
    pieces: &'static [Piece],
    node: &'a Node,
    kids: &'a [Node],
) -> Result<(), Memory>
    ensures items { OnOk result (work_items work.new.items ≡ part_items is_out count pieces.now node.now (all_written kids.now) ++ work_items work.old.items) }
    ensures cost { OnOk result (work_cost work.new.items < work_cost work.old.items + (4 + length pieces.now + cost_of_all kids.now)) }
{
    if is_out {
        let left = kids.split_at(count.min(kids.len())).1;
        return push_rest(work, true, pieces, node, left);
    }
    push_rest(work, false, pieces, node, kids)
}

// A piece that is written by itself, and then the others.
#[tactic(auto, using(crate::proofs::Inks::items_written, crate::proofs::Works::regroup))]
fn step_simple<'a>(
    page: &mut Page,
    work: &mut Vec<Task<'a>>,
    piece: Piece,
    pieces: &'static [Piece],
    node: &'a Node,
    kids: &'a [Node],
) -> Result<(), Memory>
    ensures items { OnOk result (finished page.new work.new.items ≡ after (piece_items piece (text_of node.now) ++ (written_line false pieces.now (text_of node.now) (notes_of node.now) (all_written kids.now) ++ work_items work.old.items)) (ink_of page.old)) }
    ensures cost { OnOk result (work_cost work.new.items < work_cost work.old.items + (4 + length pieces.now + cost_of_all kids.now)) }
{
    write_piece(page, piece, node.text.as_bytes())?;
    push_rest(work, false, pieces, node, kids)
}

// The piece of a line that comes next.
fn step_piece<'a>(
    page: &mut Page,
    work: &mut Vec<Task<'a>>,
    piece: Piece,
    pieces: &'static [Piece],
    node: &'a Node,
    kids: &'a [Node],
) -> Result<(), Memory>
    ensures items { OnOk result (finished page.new work.new.items ≡ after (written_line false (piece ∷ pieces.now) (text_of node.now) (notes_of node.now) (all_written kids.now) ++ work_items work.old.items) (ink_of page.old)) }
    ensures cost { OnOk result (work_cost work.new.items < work_cost work.old.items + (4 + length pieces.now + cost_of_all kids.now)) }
{
    match piece {
        Piece::Kid(shape) => step_kid(page, work, shape, pieces, node, kids),
        Piece::Members(place) => push_members(work, place, node, kids),
        Piece::Arguments => push_arguments(work, pieces, node, kids),
        Piece::Option => push_part(work, is_left_out(kids), 1, pieces, node, kids),
        Piece::Shown(count) => {
            let count = count as usize;
            push_part(work, are_bare(count, kids), count, pieces, node, kids)
        }
        Piece::End => step_simple(page, work, piece, pieces, node, kids),
        Piece::Word(_) => step_simple(page, work, piece, pieces, node, kids),
        Piece::Mark(_) => step_simple(page, work, piece, pieces, node, kids),
        Piece::Own(_) => step_simple(page, work, piece, pieces, node, kids),
        Piece::Indent => step_simple(page, work, piece, pieces, node, kids),
        Piece::Outdent => step_simple(page, work, piece, pieces, node, kids),
        Piece::Glue => step_simple(page, work, piece, pieces, node, kids),
        Piece::NoteOn => step_simple(page, work, piece, pieces, node, kids),
        Piece::NoteOff => step_simple(page, work, piece, pieces, node, kids),
    }
}

// The piece of a line that comes next, if there is one. `skip` tells that a part is left out.
fn step_line<'a>(
    page: &mut Page,
    work: &mut Vec<Task<'a>>,
    skip: bool,
    pieces: &'static [Piece],
    node: &'a Node,
    kids: &'a [Node],
) -> Result<(), Memory>
    ensures items { OnOk result (finished page.new work.new.items ≡ after (written_line skip pieces.now (text_of node.now) (notes_of node.now) (all_written kids.now) ++ work_items work.old.items) (ink_of page.old)) }
    ensures cost { OnOk result (work_cost work.new.items < work_cost work.old.items + (3 + length pieces.now + cost_of_all kids.now)) }
{
    let Some((piece, pieces)) = pieces.split_first() else {
        return Ok(());
    };
    if skip {
        let skip = !matches!(*piece, Piece::End);
        return push_rest(work, skip, pieces, node, kids);
    }
    step_piece(page, work, *piece, pieces, node, kids)
}

#[tactic(auto, using(crate::proofs::Inks::items_written))]
fn step<'a>(page: &mut Page, work: &mut Vec<Task<'a>>, task: Task<'a>) -> Result<(), Memory>
    ensures items { OnOk result (finished page.new work.new.items ≡ after (task_items task.entry ++ work_items work.old.items) (ink_of page.old)) }
    ensures cost { OnOk result (work_cost work.new.items < work_cost work.old.items + task_cost task.entry) }
{
    match task {
        Task::Line(skip, pieces, node, kids) => step_line(page, work, skip, pieces, node, kids),
        Task::Members(place, nodes) => step_members(page, work, place, nodes),
        Task::Marked(place, mark, nodes) => step_marked(page, work, place, mark, nodes),
        Task::Arguments(line, nodes) => step_arguments(page, work, line, nodes),
        Task::Close => page.mark(Mark::Close),
        Task::Break => page.line_break(),
        Task::Comments(notes) => {
            page.comments(notes)?;
            Ok(())
        }
    }
}

/// Writes a node as it stands at a place. The depth of the tree takes no stack.
pub fn write_node(alloc: Global, page: &mut Page, place: Choice, node: &Node) -> Result<(), Memory>
    ensures { OnOk result (ink_of page.new ≡ after ((as_written node.now).at (One place)) (ink_of page.old)) }
{
    let mut work = Vec::new(alloc);
    open_node(page, &mut work, place, node)?;
    while let Some(task) = work.pop() {
        step(page, &mut work, task)?;
    }
    Ok(())
}
