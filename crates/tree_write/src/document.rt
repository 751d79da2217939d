// The canonical text of a document's files.
ghost use Rattle.std.specs.Prelude.{◌≡◌, IfOk, IfSome, Some, slice_get};
ghost use Rattle.ada_tree.specs.Nodes.{kids_of};
ghost use Rattle.ada_tree.specs.Rendering.{text, file_text};
ghost use Rattle.tree_write.specs.Reread.{AreReadAs};

use crate::page::Page;
use crate::steps::write_node;
use ada_tree::{Choice, Doc, Kind, Node};
use base_kit::Memory;
use std::alloc::Global;
use text_laws::written_files_are_read;

fn write_file(alloc: Global, file: &Node) -> Result<Vec<u8>, Memory>
    ensures { IfOk result (λ bytes. bytes.items ≡ file_text (Some file.now)) }
{
    let mut page = Page::new(alloc);
    write_node(alloc, &mut page, Choice::Only(Kind::File), file)?;
    page.into_bytes()
}

/// The canonical text of the file of this number, from 0; no bytes for a file that isn't there. It is
/// read as the file again.
pub fn write_doc(alloc: Global, doc: &Doc, file: u32) -> Result<Vec<u8>, Memory>
    ensures text { IfOk result (λ bytes. bytes.items ≡ text doc.now file) }
    ensures read { IfOk result (λ bytes. IfSome (slice_get (kids_of doc.now) file) (AreReadAs bytes.items)) }
{
    written_files_are_read();
    match doc.root.kids.get(file as usize) {
        None => Ok(Vec::new(alloc)),
        Some(node) => write_file(alloc, node),
    }
}
