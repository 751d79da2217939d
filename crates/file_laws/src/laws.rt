// From bytes to documents and back. Each law is the contract of a function that does nothing.
ghost use Rattle.std.specs.Prelude.{◌≡◌, ◌↔◌, ℕ, List, true, false, Some, Contains};
ghost use Rattle.std.specs.List.{All};
ghost use Rattle.ada_tree.specs.declared.node.Node.{Node};
ghost use Rattle.ada_tree.specs.Nodes.{kids_of};
ghost use Rattle.ada_tree.specs.Fits.{Fits};
ghost use Rattle.ada_tree.specs.Rendering.{file_text};
ghost use Rattle.text_read.specs.Fragments.{IsText};
ghost use Rattle.text_read.specs.Files.{file_part, is_small, too_many, IsFile, IsFaultOfFile};
ghost use Rattle.file_laws.specs.Documents.{HasText, document, has_file_front, begins_a_file};

use text_laws::written_files_are_read;

/// Files that were read, however many, make a document: it fits the grammar.
pub fn read_files_make_a_document()
    ensures { (files : List Node) → All HasText files → Fits (document files) }
{}

/// The canonical text of each file of a document is read as the file: it spells the file, within the
/// limits of nesting. A file of no more than 100,000 nodes and 50,000 proof steps is read back, and one
/// of more has the fault of a file that is too large.
pub fn written_files_are_read_back()
    ensures text { (root file : Node) → Fits root → Contains (kids_of root) file → IsText file_part (file_text (Some file)) file }
    ensures read { (root file : Node) → Fits root → Contains (kids_of root) file
        → is_small file ≡ true → IsFile (file_text (Some file)) file }
    ensures large { (root file : Node) → Fits root → Contains (kids_of root) file
        → is_small file ≡ false → IsFaultOfFile (file_text (Some file)) (too_many file) }
{
    written_files_are_read();
}

/// Whatever a printed file is read as is that file, and is printed with the same bytes again.
/// So the canonical text of a file that was read is read as that file, and as no other.
pub fn printed_files_print_alike()
    ensures node { (root file again : Node) → Fits root → Contains (kids_of root) file
        → IsText file_part (file_text (Some file)) again → again ≡ file }
    ensures bytes { (root file again : Node) → Fits root → Contains (kids_of root) file
        → IsText file_part (file_text (Some file)) again → file_text (Some again) ≡ file_text (Some file) }
    ensures text { (bytes : List ℕ) (node again : Node)
        → IsText file_part bytes node → IsText file_part (file_text (Some node)) again ↔ (again ≡ node) }
    ensures file { (bytes : List ℕ) (node again : Node)
        → IsFile bytes node → IsFile (file_text (Some node)) again ↔ (again ≡ node) }
{
    read_files_make_a_document();
    written_files_are_read_back();
}

/// The canonical text of a file that was read, or of a file of a document, is empty or begins with a
/// comment, an annotation, or one of the words `function`, `package`, `procedure`, `use` and `with`. So
/// its first byte is one of five, and the word tells it from a line that begins with `fault` or `usage`.
pub fn file_begins()
    ensures front { (file : Node) → HasText file → has_file_front (file_text (Some file)) ≡ true }
    ensures read { (file : Node) → HasText file → begins_a_file (file_text (Some file)) ≡ true }
    ensures written_front { (root file : Node) → Fits root → Contains (kids_of root) file
        → has_file_front (file_text (Some file)) ≡ true }
    ensures written { (root file : Node) → Fits root → Contains (kids_of root) file
        → begins_a_file (file_text (Some file)) ≡ true }
{
    written_files_are_read_back();
}
