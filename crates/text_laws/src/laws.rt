// From trees to bytes and back. Each law is the contract of a function that does nothing.
ghost use Rattle.std.specs.Prelude.{◌≡◌, List, true, false, Some, None, Contains};
ghost use Rattle.ada_tree.specs.declared.kind.Kind.TheVariants as kind;
ghost use Rattle.ada_tree.specs.declared.grammar.Choice.TheVariants.{Only};
ghost use Rattle.ada_tree.specs.declared.grammar.Shape.TheVariants.{One};
ghost use Rattle.ada_tree.specs.declared.node.Node.{Node};
ghost use Rattle.ada_tree.specs.Nodes.{kids_of};
ghost use Rattle.ada_tree.specs.Items.{Item, signs};
ghost use Rattle.ada_tree.specs.Reading.{IsReading};
ghost use Rattle.ada_tree.specs.Fits.{Fits};
ghost use Rattle.ada_tree.specs.Canonical.{items_of};
ghost use Rattle.ada_tree.specs.Rendering.{render, start, file_text};
ghost use Rattle.lex_ada.specs.declared.token.Token.{Token};
ghost use Rattle.lex_ada.specs.Lexis.{AreTokens};
ghost use Rattle.lex_ada.specs.Meanings.{meanings};
ghost use Rattle.lex_ada.specs.Rendered.{are_apart, HasSigns};

/// The tokens and comments of a file's canonical text are read as the file.
pub fn canonical_text_is_read()
    ensures { (root file : Node) → Fits root → Contains (kids_of root) file
        → IsReading false (Only kind.File) (signs false (items_of (One (Only kind.File)) file)) file }
{}

/// What items are rendered to has their tokens and their comments, where they can be told apart.
pub fn rendered_text_has_the_tokens()
    ensures { (items : List Item) → are_apart false None false items ≡ true → HasSigns (render start items) (signs false items) }
{}

/// The canonical text of each file of a document has its tokens and comments, and whatever tokens
/// its bytes have are read as the file.
pub fn written_files_are_read()
    ensures tokens { (root file : Node) → Fits root → Contains (kids_of root) file
        → HasSigns (file_text (Some file)) (signs false (items_of (One (Only kind.File)) file)) }
    ensures read { (root file : Node) (tokens : List Token) → Fits root → Contains (kids_of root) file → AreTokens (file_text (Some file)) tokens
        → IsReading false (Only kind.File) (meanings (file_text (Some file)) tokens) file }
{}
