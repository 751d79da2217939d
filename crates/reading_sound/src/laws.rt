// What reading by the table means. The law is the contract of a function that does nothing.
ghost use Rattle.std.specs.Prelude.{◌≡◌, List, [], true};
ghost use Rattle.ada_tree.specs.declared.part.Part.{Part as GrammarPart};
ghost use Rattle.ada_tree.specs.Tokens.{Event};
ghost use Rattle.reading_table.specs.declared.held.Held.{Held};
ghost use Rattle.reading_table.specs.Events.{Reads};
ghost use Rattle.reading_table.specs.Spelled.{has_texts, are_events, start_of};
ghost use Rattle.reading_sound.specs.Spelled.{IsSpelled};

/// What the table reads as a part of the grammar is one value, a node that the events spell at the
/// part's place.
pub fn what_is_read_is_spelled()
    ensures read_is_spelled { (part : GrammarPart) (events : List Event) (last : List Held)
        → has_texts part ≡ true → are_events events ≡ true → Reads (start_of part) [] events last → IsSpelled part events last }
{}
