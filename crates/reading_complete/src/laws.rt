// What holds of spellings and the reading table. The law is the contract of a function that does nothing.
ghost use Rattle.std.specs.Prelude.{◌≡◌, List, [], ◌∷◌, ◌++◌, true};
ghost use Rattle.ada_tree.specs.declared.node.Node.{Node as ANode};
ghost use Rattle.ada_tree.specs.declared.part.Part.{Part as APart};
ghost use Rattle.ada_tree.specs.Nodes.{is_silent};
ghost use Rattle.ada_tree.specs.Tokens.{Event};
ghost use Rattle.reading_table.specs.declared.held.Held.{Held as AHeld};
ghost use Rattle.reading_table.specs.declared.held.Held.TheVariants as held;
ghost use Rattle.reading_table.specs.Events.{Reads};
ghost use Rattle.reading_table.specs.Rows.{Placed};
ghost use Rattle.reading_table.specs.Spelled.{SpelledAs, has_texts, start_of};
ghost use Rattle.reading_complete.specs.Bare.{bare};

/// What is spelled is read: where events begin with a spelling of a node as a part of the grammar, and
/// other symbols read what follows with the node as the last value, the symbols with which the part
/// is read, and then the others, read the whole. The comments before a node are no part of its
/// spelling, so the value is the node without them.
pub fn what_is_spelled_is_read()
    ensures spelled_is_read { (part : APart) (node : ANode) (events rest : List Event) (ss : List Placed) (values last : List AHeld)
        → has_texts part ≡ true → SpelledAs part node events rest → Reads ss (held.Tree (bare node) ∷ values) rest last → Reads (start_of part ++ ss) values events last }
    ensures silent_is_read { (part : APart) (node : ANode) (events rest : List Event) (ss : List Placed) (values last : List AHeld)
        → has_texts part ≡ true → is_silent node ≡ true → SpelledAs part node events rest → Reads ss (held.Tree node ∷ values) rest last → Reads (start_of part ++ ss) values events last }
    ensures whole_is_read { (part : APart) (node : ANode) (events : List Event)
        → has_texts part ≡ true → SpelledAs part node events [] → Reads (start_of part) [] events (held.Tree (bare node) ∷ []) }
{}
