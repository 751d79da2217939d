// What the tokens of texts stand for. The law is the contract of a function that does nothing.
ghost use Rattle.std.specs.Prelude.{◌≡◌, ℕ, List, true};
ghost use Rattle.lex_ada.specs.declared.token.Token.{Token};
ghost use Rattle.lex_ada.specs.Lexis.{AreTokens};
ghost use Rattle.lex_ada.specs.Meanings.{meanings};
ghost use Rattle.reading_exact.specs.Whole.{are_signs};
ghost use Rattle.text_signs.specs.Fragments.{noted_tokens};

/// What the tokens of every text stand for are tokens and comments that there are in texts; also where
/// all of them are taken as annotation tokens, as those of a fragment that stands in annotations are.
pub fn the_tokens_of_texts_fit()
    ensures texts { (bytes : List ℕ) (tokens : List Token) → AreTokens bytes tokens → are_signs (meanings bytes tokens) ≡ true }
    ensures fragments { (bytes : List ℕ) (tokens : List Token) → AreTokens bytes tokens → are_signs (meanings bytes (noted_tokens bytes tokens)) ≡ true }
{}
