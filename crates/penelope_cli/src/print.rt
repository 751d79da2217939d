// Prints a document.
ghost use Rattle.std.specs.Prelude.{◌≡◌, ◌<◌, ◌^◌, length, IfOk};
ghost use Rattle.ada_tree.specs.Nodes.{kids_of};
ghost use Rattle.penelope_cli.specs.Fresh.{texts_of};

use crate::write::write;
use ada_tree::Doc;
use base_kit::{Memory, Text};
use std::alloc::Global;
use tree_write::write_doc;

/// The canonical texts of the files of a document, one after another.
pub fn texts(alloc: Global, doc: &Doc) -> Result<Text, Memory>
    requires { length (kids_of doc.now) < 2 ^ 32 }
    ensures { IfOk result (λ texts. texts ≡ texts_of (kids_of doc.now)) }
{
    let mut out = Vec::new(alloc);
    for number in 0..doc.root.kids.len() {
        let text = write_doc(alloc, doc, number as u32)?;
        write(&mut out, text.as_slice())?;
    }
    Ok(Text::from(out))
}
