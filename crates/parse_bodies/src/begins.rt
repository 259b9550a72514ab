//! What begins at a place of the tokens.

ghost use Rattle.std.specs.Prelude.{◌≡◌, ℕ};
ghost use Rattle.grammar_algebra.specs.Reading.{begins, first, reading};
ghost use Rattle.grammar_sql.specs.Declarations as declarations;
ghost use Rattle.grammar_sql.specs.Statements as statements;
ghost use Rattle.grammar_sql.specs.Sql.{rules};

use grammar_algebra::{Input, Stage};
use grammar_sql::StructureWord;
use sql_lex::{TokenKind, Word};

/// Whether what may have a label begins, at its label or without one.
#[tactic(auto, unfolding(grammar_sql::specs::Statements::labelled, grammar_sql::specs::Statements::if_label, grammar_sql::specs::Statements::label, grammar_sql::specs::Statements::structures, grammar_sql::specs::Statements::structure, grammar_sql::specs::Statements::construct, grammar_sql::specs::Trees::ident))]
pub(crate) fn begins_labelled(input: &Input<'_>) -> bool
    ensures { result ≡ begins (first statements.labelled) input.now.rest.now }
{
    input.sees_any(&[
        TokenKind::Name,
        TokenKind::Word(Word::Begin),
        TokenKind::Word(Word::Loop),
        TokenKind::Word(Word::While),
        TokenKind::Word(Word::Repeat),
        TokenKind::Word(Word::For),
    ])
}

/// Whether a statement of a routine begins.
#[tactic(auto, unfolding(grammar_sql::specs::Statements::ended, grammar_sql::specs::Statements::stmt, grammar_sql::specs::Statements::labelled, grammar_sql::specs::Statements::if_label, grammar_sql::specs::Statements::label, grammar_sql::specs::Statements::structures, grammar_sql::specs::Statements::structure, grammar_sql::specs::Statements::construct, grammar_sql::specs::Trees::ident, grammar_sql::specs::Statements::if_statement, grammar_sql::specs::Statements::if_construct, grammar_sql::specs::Statements::case_statement, grammar_sql::specs::Statements::case_construct, grammar_sql::specs::Statements::simple_statement, grammar_sql::specs::Statements::storing, grammar_sql::specs::Writing::dml, grammar_sql::specs::Writing::insert, grammar_sql::specs::Writing::insert_word, grammar_sql::specs::Writing::update, grammar_sql::specs::Writing::update_word, grammar_sql::specs::Writing::delete, grammar_sql::specs::Writing::delete_word, grammar_sql::specs::Writing::call, grammar_sql::specs::Writing::call_word, grammar_sql::specs::Statements::set_statement, grammar_sql::specs::Statements::set_word, grammar_sql::specs::Statements::select_into, grammar_sql::specs::Queries::select_word, grammar_sql::specs::Statements::cursor_statement, grammar_sql::specs::Statements::open_statement, grammar_sql::specs::Statements::open_word, grammar_sql::specs::Statements::close_statement, grammar_sql::specs::Statements::close_word, grammar_sql::specs::Statements::fetch, grammar_sql::specs::Statements::fetch_word, grammar_sql::specs::Statements::condition_statement, grammar_sql::specs::Conditions::signal, grammar_sql::specs::Conditions::signal_word, grammar_sql::specs::Conditions::resignal, grammar_sql::specs::Conditions::resignal_word, grammar_sql::specs::Conditions::get_diagnostics, grammar_sql::specs::Conditions::get_word, grammar_sql::specs::Statements::leaving, grammar_sql::specs::Statements::leave_statement, grammar_sql::specs::Statements::leave_word, grammar_sql::specs::Statements::iterate_statement, grammar_sql::specs::Statements::iterate_word, grammar_sql::specs::Statements::return_statement, grammar_sql::specs::Statements::return_word))]
pub(crate) fn begins_stmt(input: &Input<'_>) -> bool
    ensures { result ≡ begins (first statements.ended) input.now.rest.now }
{
    input.sees_any(&[
        TokenKind::Name,
        TokenKind::Word(Word::Begin),
        TokenKind::Word(Word::Loop),
        TokenKind::Word(Word::While),
        TokenKind::Word(Word::Repeat),
        TokenKind::Word(Word::For),
        TokenKind::Word(Word::If),
        TokenKind::Word(Word::Case),
        TokenKind::Word(Word::Insert),
        TokenKind::Word(Word::Update),
        TokenKind::Word(Word::Delete),
        TokenKind::Word(Word::Call),
        TokenKind::Word(Word::Set),
        TokenKind::Word(Word::Select),
        TokenKind::Word(Word::Open),
        TokenKind::Word(Word::Close),
        TokenKind::Word(Word::Fetch),
        TokenKind::Word(Word::Signal),
        TokenKind::Word(Word::Resignal),
        TokenKind::Word(Word::Get),
        TokenKind::Word(Word::Leave),
        TokenKind::Word(Word::Iterate),
        TokenKind::Word(Word::Return),
    ])
}

/// Whether a declaration begins, at any stage.
#[tactic(auto, unfolding(grammar_sql::specs::Declarations::declaration))]
pub(crate) fn begins_declaration(input: &Input<'_>, stage: Stage) -> bool
    ensures { result ≡ begins (first (declarations.declaration stage)) input.now.rest.now }
{
    input.sees(TokenKind::Word(Word::Declare))
}

/// Whether a branch after a token of the kind begins.
#[tactic(auto, unfolding(grammar_sql::specs::Statements::branch_after))]
pub(crate) fn begins_branch(input: &Input<'_>, kind: TokenKind) -> bool
    ensures { result ≡ begins (first (statements.branch_after kind)) input.now.rest.now }
{
    input.sees(kind)
}

/// The word that begins what may have a label, or FOR where none stands here: what is read here as
/// such is read as what that word begins.
#[tactic(auto, unfolding(grammar_sql::specs::Statements::structures, grammar_sql::specs::Statements::structure, grammar_sql::specs::Statements::construct))]
pub(crate) fn structure_word(input: &Input<'_>) -> StructureWord
    ensures { (room : ℕ) → reading rules room statements.structures input.now.rest.now ≡
        reading rules room (statements.structure result) input.now.rest.now }
{
    if input.sees(TokenKind::Word(Word::Begin)) {
        return StructureWord::Begin;
    }
    if input.sees(TokenKind::Word(Word::Loop)) {
        return StructureWord::Loop;
    }
    if input.sees(TokenKind::Word(Word::While)) {
        return StructureWord::While;
    }
    if input.sees(TokenKind::Word(Word::Repeat)) {
        return StructureWord::Repeat;
    }
    StructureWord::For
}

/// The word of what may have a label.
pub(crate) fn word_of(structure: StructureWord) -> Word
    ensures { result ≡ statements.word_of structure }
{
    match structure {
        StructureWord::Begin => Word::Begin,
        StructureWord::Loop => Word::Loop,
        StructureWord::While => Word::While,
        StructureWord::Repeat => Word::Repeat,
        StructureWord::For => Word::For,
    }
}
