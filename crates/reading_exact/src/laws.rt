// What reading a text by the table means. The law is the contract of a function that does nothing.
ghost use Rattle.std.specs.Prelude.{◌≡◌, List, true, Ok};
ghost use Rattle.ada_tree.specs.declared.node.Node.{Node as ANode};
ghost use Rattle.ada_tree.specs.declared.part.Part.{Part as APart};
ghost use Rattle.ada_tree.specs.Tokens.{Sign};
ghost use Rattle.reading_table.specs.Spelled.{has_texts};
ghost use Rattle.reading_table.specs.States.{State};
ghost use Rattle.reading_exact.specs.Whole.{are_signs, read_whole, GrammarReads, TableReads, GivesNode};

/// Apart from the limits, the table reads the tokens and comments of a text as a node of a part of the
/// grammar exactly where the grammar does. So they are read as one node at most.
pub fn the_table_reads_the_grammar()
    ensures read { (part : APart) (signs : List Sign) (node : ANode)
        → has_texts part ≡ true → GrammarReads part signs node → TableReads part signs node }
    ensures derived { (part : APart) (signs : List Sign) (state : State)
        → has_texts part ≡ true → are_signs signs ≡ true → read_whole part signs ≡ Ok state → GivesNode part signs state }
    ensures one { (part : APart) (signs : List Sign) (a b : ANode)
        → has_texts part ≡ true → GrammarReads part signs a → GrammarReads part signs b → a ≡ b }
{}
