// What holds of reading by the table. Each law is the contract of a function that does nothing.
ghost use Rattle.std.specs.Prelude.{◌≡◌, ℕ, List, [], ◌∷◌, ◌++◌, length, take, Bool, Ok, Err};
ghost use Rattle.reading_table.specs.declared.rule.Rule.{Rule as ARule};
ghost use Rattle.reading_table.specs.Faults.{IsRead, reading, GoesOn};
ghost use Rattle.reading_table.specs.States.{Token, State};

/// The next token alone tells how reading goes on: whatever the rule, what is read from the left is
/// what the rows derive, and so tokens are read in one way at most.
pub fn the_next_token_tells_the_row()
    ensures derived { (end : State → State) (note : Bool) (r : ARule) (state last : State) (tokens : List Token)
        → reading end note r state tokens ≡ Ok last → IsRead end note r state tokens last }
    ensures read { (end : State → State) (note : Bool) (r : ARule) (state last : State) (tokens : List Token)
        → IsRead end note r state tokens last → reading end note r state tokens ≡ Ok last }
    ensures one { (end : State → State) (note : Bool) (r : ARule) (state a b : State) (tokens : List Token)
        → IsRead end note r state tokens a → IsRead end note r state tokens b → a ≡ b }
{}

/// Where reading stops, the tokens before go on to some that are read, and with the next token, or
/// at the end, none are read.
pub fn reading_stops_where_no_tokens_go_on()
    ensures before { (end : State → State) (note : Bool) (r : ARule) (state : State) (tokens : List Token) (n : ℕ)
        → reading end note r state tokens ≡ Err n → GoesOn note r state (take n tokens) }
    ensures refused { (end other_end : State → State) (note : Bool) (r : ARule) (state last : State) (front rest other : List Token) (t : Token)
        → reading end note r state (front ++ t ∷ rest) ≡ Err (length front) → IsRead other_end note r state (front ++ t ∷ other) last → ⊥ }
    ensures ended { (end : State → State) (note : Bool) (r : ARule) (state last : State) (tokens : List Token) (n : ℕ)
        → reading end note r state tokens ≡ Err n → IsRead end note r state tokens last → ⊥ }
{}
