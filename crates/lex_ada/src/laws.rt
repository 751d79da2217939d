// What holds of all texts. Each law is the contract of a function that does nothing.
ghost use Rattle.std.specs.Prelude.{◌≡◌, ℕ, ◌+◌, List, [], ◌∷◌, ◌++◌, length, true, false};
ghost use Rattle.base_kit.specs.declared.fault.Code.{Code};
ghost use Rattle.ada_tree.specs.Texts.{ends_line};
ghost use Rattle.lex_ada.specs.declared.token.Token.{Token};
ghost use Rattle.lex_ada.specs.Lexis.{is_return_before_feed, Lexed, AreTokens, InOrder};
ghost use Rattle.lex_ada.specs.Faults.{line_ends, IsFault};

/// A text has one list of tokens or one fault at most.
pub fn a_text_has_one_answer()
    ensures tokens { (bytes : List ℕ) (a b : List Token) → AreTokens bytes a → AreTokens bytes b → a ≡ b }
    ensures fault { (bytes : List ℕ) (a b : Code) (m n : ℕ) → IsFault bytes a m → IsFault bytes b n → (a ≡ b) × (m ≡ n) }
    ensures either { (bytes : List ℕ) (tokens : List Token) (code : Code) (line : ℕ) → AreTokens bytes tokens → IsFault bytes code line → ⊥ }
{}

/// Tokens stand one after another in their text.
pub fn tokens_stand_in_order()
    ensures { (bytes : List ℕ) (tokens : List Token) → AreTokens bytes tokens → InOrder 0 (length bytes) tokens }
{}

/// A text that ends with its line has the same tokens before any other text, and so has the other
/// one, as its place is now.
pub fn lines_join()
    ensures { (front rest : List ℕ) (b : ℕ) (before after : List Token) → ends_line b ≡ true → is_return_before_feed b rest ≡ false
        → AreTokens (front ++ b ∷ []) before → Lexed false (length front + 1) (1 + line_ends (front ++ b ∷ [])) rest after
        → AreTokens ((front ++ b ∷ []) ++ rest) (before ++ after) }
{}
