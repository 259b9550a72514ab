//! What begins at a place of the tokens.

ghost use Rattle.std.specs.Prelude.{◌≡◌};
ghost use Rattle.grammar_algebra.specs.Reading.{begins, first};
ghost use Rattle.grammar_sql.specs.Queries as queries;

use grammar_algebra::Input;
use sql_lex::{TokenKind, Word};

/// Whether a query begins, which an ORDER BY may follow.
#[tactic(auto, unfolding(grammar_sql::specs::Queries::ordered_query, grammar_sql::specs::Queries::query, grammar_sql::specs::Queries::select, grammar_sql::specs::Queries::select_word, grammar_sql::specs::Queries::values, grammar_sql::specs::Queries::values_word))]
pub(crate) fn begins_ordered_query(input: &Input<'_>) -> bool
    ensures { result ≡ begins (first queries.ordered_query) input.now.rest.now }
{
    input.sees_any(&[TokenKind::Word(Word::Select), TokenKind::Word(Word::Values)])
}
