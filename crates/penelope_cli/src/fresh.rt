// What a command tells of its sources.
ghost use Rattle.std.specs.Prelude.{◌≡◌, ◌<◌, ◌^◌, length, IfOk};
ghost use Rattle.std.specs.List.{All};
ghost use Rattle.ada_tree.specs.Nodes.{kids_of};
ghost use Rattle.penelope_cli.specs.Fresh.{told_of, fresh};
ghost use Rattle.penelope_cli.specs.Words.{named};

use crate::check::check;
use crate::document::read_document;
use crate::fault::fault_line;
use crate::print::texts;
use crate::words::Command;
use ada_tree::Doc;
use base_kit::{Memory, Stop, Text};
use std::alloc::Global;

/// What is printed for sources: what a command asks for, or the line of their fault.
#[derive(Drop)]
pub enum Outcome {
    Text(Text),
    Faulty(Text),
}

// What is told of a document.
fn told_of(alloc: Global, command: Command<'_>, doc: &Doc) -> Result<Outcome, Memory>
    requires { length (kids_of doc.now) < 2 ^ 32 }
    ensures { IfOk result (λ outcome. outcome ≡ told_of (named command.entry) doc.now) }
{
    match command {
        Command::Check(_) => check(alloc, doc.root.kids.as_slice()),
        Command::Print(_) => Ok(Outcome::Text(texts(alloc, doc)?)),
    }
}

/// What a command tells of its sources, from their bytes alone.
pub fn fresh(alloc: Global, command: Command<'_>, sources: &[Text]) -> Result<Outcome, Memory>
    requires number { length sources.now < 2 ^ 32 }
    requires bytes { All (λ bytes. length bytes < 2 ^ 32) sources.now }
    ensures { IfOk result (λ outcome. outcome ≡ fresh (named command.entry) sources.now) }
{
    match read_document(alloc, sources) {
        Ok(doc) => told_of(alloc, command, &doc),
        Err(Stop::Fault(fault)) => Ok(Outcome::Faulty(fault_line(alloc, &fault)?)),
        Err(Stop::Memory) => Err(Memory),
    }
}
