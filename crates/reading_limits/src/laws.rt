// What reading a text by the table within the limits means. Each law is the contract of a function that
// does nothing.
ghost use Rattle.std.specs.Prelude.{◌≡◌, ℕ, ◌≤◌, List, [], true};
ghost use Rattle.ada_tree.specs.declared.limits.TheConstants.{MOST_NESTED};
ghost use Rattle.ada_tree.specs.declared.node.Node.{Node as ANode};
ghost use Rattle.ada_tree.specs.declared.part.Part.{Part as APart};
ghost use Rattle.ada_tree.specs.Tokens.{Sign};
ghost use Rattle.reading_table.specs.Limits.{read, stopped, limited};
ghost use Rattle.reading_table.specs.Spelled.{has_texts};
ghost use Rattle.reading_table.specs.Signs.{tokens_of};
ghost use Rattle.reading_table.specs.States.{State};
ghost use Rattle.reading_exact.specs.Whole.{are_signs};
ghost use Rattle.reading_limits.specs.Viable.{ReadsWithin, TableReadsWithin, ReadsNode, GoesOnWithin, StopsAt, IsLimitedAt, read_within, read_weighed};

/// The table reads the tokens and comments of a text within the limits as a node of a part of the
/// grammar exactly where the grammar does, with so many nodes that count round it; a file without
/// tokens, too, is read within the limits only where no more are round it than may be.
pub fn the_table_reads_within_limits()
    ensures read { (round : ℕ) (part : APart) (signs : List Sign) (node : ANode)
        → has_texts part ≡ true → ReadsWithin round part signs node → TableReadsWithin round part signs node }
    ensures derived { (round : ℕ) (part : APart) (signs : List Sign) (state : State)
        → (tokens_of signs ≡ [] → round ≤ MOST_NESTED) → has_texts part ≡ true → are_signs signs ≡ true → read_within round part signs ≡ read state
        → ReadsNode round part signs state }
{}

/// Where reading stops, what stands before goes on to a text that is read within the limits. With the
/// token there, or at the end, no text is read; or none within the limits, though some without them. Of
/// each part some text is within the limits, where nothing is round it.
pub fn reading_stops_at_the_first_token()
    ensures begins { (part : APart) → has_texts part ≡ true → GoesOnWithin 0 part [] }
    ensures stopped { (round : ℕ) (part : APart) (signs : List Sign) (n : ℕ)
        → has_texts part ≡ true → are_signs signs ≡ true → read_within round part signs ≡ stopped n → StopsAt round part signs n }
    ensures limited { (round : ℕ) (part : APart) (signs : List Sign) (n : ℕ)
        → has_texts part ≡ true → are_signs signs ≡ true → read_within round part signs ≡ limited n → IsLimitedAt round part signs n }
{}

/// Where what limits see of the values is kept beside them, and no tree is looked at, reading is the same.
pub fn limits_need_no_look_at_trees()
    ensures { (round : ℕ) (part : APart) (signs : List Sign)
        → has_texts part ≡ true → read_weighed round part signs ≡ read_within round part signs }
{}

/// A text of a part is read, or reading stops in it at one place and for one reason.
pub fn reading_ends_in_one_way()
    ensures stopped { (round : ℕ) (part : APart) (signs : List Sign) (m n : ℕ)
        → StopsAt round part signs m → StopsAt round part signs n → m ≡ n }
    ensures limited { (round : ℕ) (part : APart) (signs : List Sign) (m n : ℕ)
        → IsLimitedAt round part signs m → IsLimitedAt round part signs n → m ≡ n }
    ensures one_reason { (round : ℕ) (part : APart) (signs : List Sign) (m n : ℕ)
        → StopsAt round part signs m → IsLimitedAt round part signs n → ⊥ }
    ensures not_stopped { (round : ℕ) (part : APart) (signs : List Sign) (node : ANode) (n : ℕ)
        → ReadsWithin round part signs node → StopsAt round part signs n → ⊥ }
    ensures not_limited { (round : ℕ) (part : APart) (signs : List Sign) (node : ANode) (n : ℕ)
        → ReadsWithin round part signs node → IsLimitedAt round part signs n → ⊥ }
{}
