//! Laws of tokens. Each function does nothing; its contract is the law.

ghost use Rattle.std.specs.Prelude.{◌≡◌, ◌≤◌, ◌++◌, List, ℕ, length};
ghost use Rattle.sql_lex.specs.declared.token.Lexeme.{Lexeme};
ghost use Rattle.sql_lex.specs.Tokens.{IsLexeme, IsTokens, Lexing, Spells};

/// Each script has one list of tokens, and no other.
pub fn each_script_has_one_lexing()
    ensures one { (bytes : List ℕ) → (t : Lexing) × IsTokens bytes t }
    ensures no_other { (bytes : List ℕ) (t u : Lexing) → IsTokens bytes t → IsTokens bytes u →
        t ≡ u }
{}

/// A token is the longest that begins at its place: whatever spells a lexeme there is no longer.
pub fn each_token_is_the_longest()
    ensures { (l other : Lexeme) (bytes rest front more : List ℕ) → IsLexeme l bytes rest →
        bytes ++ rest ≡ front ++ more → Spells other front → length front ≤ length bytes }
{}
