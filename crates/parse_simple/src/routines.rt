//! The parts of routines that hold no statement: parameters and characteristics.

ghost use Rattle.std.specs.Prelude.{◌≡◌};
ghost use Rattle.grammar_algebra.specs.Grammar.{optional};
ghost use Rattle.grammar_algebra.specs.Reading.{begins, first, reading};
ghost use Rattle.grammar_algebra.specs.Reads.{Reads};
ghost use Rattle.grammar_sql.specs.Trees as trees;
ghost use Rattle.grammar_sql.specs.Definitions as definitions;
ghost use Rattle.grammar_sql.specs.Sql.{rules};

use grammar_algebra::{Input, ParseError};
use parse_expressions::{ListItem, anchor, anchor_in, choice, comma_list, data_type, ident};
use parse_nodes::mode_or_in;
use sql_lex::{Sign, TokenKind, Word};
use sqlite_items::Items;
use statement_trees::{Characteristic, CharacteristicKind, Parameter, ParameterMode};
use std::alloc::Global;
use syntax_trees::{Anchor, DataType};

// ---- the parameters of a function

#[tactic(auto, unfolding(grammar_sql::specs::Definitions::parameter))]
fn parameter(input: &mut Input<'_>, room: u32) -> Result<Parameter, ParseError>
    ensures { Reads (reading rules room definitions.parameter input.old.rest.now) result
        input.new.rest.now }
{
    let name = ident(input, room)?;
    let data_type = data_type(input, room)?;
    Ok(Parameter {
        mode: ParameterMode::In,
        name,
        data_type,
    })
}

// The parameters of a function.
struct FunctionParameters;

impl ListItem for FunctionParameters {
    type Tree = Parameter;

    ghost item = { definitions.parameter };

    fn read(_alloc: Global, input: &mut Input<'_>, room: u32) -> Result<Parameter, ParseError> {
        parameter(input, room)
    }
}

#[tactic(auto, unfolding(grammar_sql::specs::Definitions::parameters, grammar_sql::specs::Definitions::more_parameters))]
fn parameters(
    alloc: Global,
    input: &mut Input<'_>,
    room: u32,
) -> Result<Items<Parameter>, ParseError>
    ensures { Reads (reading rules room definitions.parameters input.old.rest.now) result
        input.new.rest.now }
{
    comma_list::<FunctionParameters>(alloc, input, room)
}

#[tactic(auto, unfolding(grammar_sql::specs::Definitions::if_parameters, grammar_sql::specs::Definitions::parameters, grammar_sql::specs::Definitions::parameter, grammar_sql::specs::Trees::ident))]
fn if_parameters(
    alloc: Global,
    input: &mut Input<'_>,
    room: u32,
) -> Result<Items<Parameter>, ParseError>
    ensures { Reads (reading rules room definitions.if_parameters input.old.rest.now) result
        input.new.rest.now }
{
    if input.sees(TokenKind::Name) {
        parameters(alloc, input, room)
    } else {
        Ok(Items::new(alloc))
    }
}

/// The parameters of a function in their brackets (ISO/IEC 9075-2, 11.60), by the rule `Parameters`
/// in its brackets. On Ok the input stands after the closing bracket, else at the token that does
/// not go on.
#[tactic(auto, unfolding(grammar_sql::specs::Trees::bracketed))]
pub fn bracketed_parameters(
    alloc: Global,
    input: &mut Input<'_>,
    room: u32,
) -> Result<Items<Parameter>, ParseError>
    ensures { Reads (reading rules room (trees.bracketed trees.Parameters) input.old.rest.now)
        result input.new.rest.now }
{
    let left = input.open(room, TokenKind::Sign(Sign::LeftParen))?;
    let inner = if_parameters(alloc, input, left)?;
    input.close(TokenKind::Sign(Sign::RightParen), inner)
}

// ---- those of a procedure

#[tactic(auto, unfolding(grammar_sql::specs::Definitions::written_mode))]
fn written_mode(input: &mut Input<'_>, room: u32) -> Result<(ParameterMode, Anchor), ParseError>
    ensures { Reads (reading rules room definitions.written_mode input.old.rest.now) result
        input.new.rest.now }
{
    choice(
        input,
        room,
        TokenKind::Word(Word::In),
        ParameterMode::In,
        &[
            (TokenKind::Word(Word::Out), ParameterMode::Out),
            (TokenKind::Word(Word::Inout), ParameterMode::Inout),
        ],
    )
}

// The same, if one stands here.
#[tactic(auto, unfolding(grammar_sql::specs::Definitions::written_mode))]
fn if_mode(input: &mut Input<'_>, room: u32) -> Result<Option<(ParameterMode, Anchor)>, ParseError>
    ensures { Reads (reading rules room (optional definitions.written_mode) input.old.rest.now)
        result input.new.rest.now }
{
    if input.sees_any(&[
        TokenKind::Word(Word::In),
        TokenKind::Word(Word::Out),
        TokenKind::Word(Word::Inout),
    ]) {
        Ok(Some(written_mode(input, room)?))
    } else {
        Ok(None)
    }
}

// Which way a value goes: IN where nothing is written.
#[tactic(auto, unfolding(grammar_sql::specs::Definitions::mode))]
fn mode(input: &mut Input<'_>, room: u32) -> Result<ParameterMode, ParseError>
    ensures { Reads (reading rules room definitions.mode input.old.rest.now) result
        input.new.rest.now }
{
    let written = if_mode(input, room)?;
    Ok(mode_or_in(written))
}

#[tactic(auto, unfolding(grammar_sql::specs::Definitions::modal_parameter))]
fn modal_parameter(input: &mut Input<'_>, room: u32) -> Result<Parameter, ParseError>
    ensures { Reads (reading rules room definitions.modal_parameter input.old.rest.now) result
        input.new.rest.now }
{
    let mode = mode(input, room)?;
    let name = ident(input, room)?;
    let data_type = data_type(input, room)?;
    Ok(Parameter {
        mode,
        name,
        data_type,
    })
}

// The parameters of a procedure.
struct ProcedureParameters;

impl ListItem for ProcedureParameters {
    type Tree = Parameter;

    ghost item = { definitions.modal_parameter };

    fn read(_alloc: Global, input: &mut Input<'_>, room: u32) -> Result<Parameter, ParseError> {
        modal_parameter(input, room)
    }
}

#[tactic(auto, unfolding(grammar_sql::specs::Definitions::modal_parameters, grammar_sql::specs::Definitions::more_modal_parameters))]
fn modal_parameters(
    alloc: Global,
    input: &mut Input<'_>,
    room: u32,
) -> Result<Items<Parameter>, ParseError>
    ensures { Reads (reading rules room definitions.modal_parameters input.old.rest.now) result
        input.new.rest.now }
{
    comma_list::<ProcedureParameters>(alloc, input, room)
}

#[tactic(auto, unfolding(grammar_sql::specs::Definitions::modal_parameters, grammar_sql::specs::Definitions::modal_parameter, grammar_sql::specs::Definitions::mode, grammar_sql::specs::Definitions::written_mode, grammar_sql::specs::Trees::ident))]
fn begins_modal_parameters(input: &Input<'_>) -> bool
    ensures { result ≡ begins (first definitions.modal_parameters) input.now.rest.now }
{
    input.sees_any(&[
        TokenKind::Word(Word::In),
        TokenKind::Word(Word::Out),
        TokenKind::Word(Word::Inout),
        TokenKind::Name,
    ])
}

#[tactic(auto, unfolding(grammar_sql::specs::Definitions::if_modal_parameters))]
fn if_modal_parameters(
    alloc: Global,
    input: &mut Input<'_>,
    room: u32,
) -> Result<Items<Parameter>, ParseError>
    ensures { Reads (reading rules room definitions.if_modal_parameters input.old.rest.now) result
        input.new.rest.now }
{
    if begins_modal_parameters(input) {
        modal_parameters(alloc, input, room)
    } else {
        Ok(Items::new(alloc))
    }
}

/// The parameters of a procedure in their brackets (ISO/IEC 9075-2, 11.60), by the rule
/// `ModalParameters` in its brackets. On Ok the input stands after the closing bracket, else at
/// the token that does not go on.
#[tactic(auto, unfolding(grammar_sql::specs::Trees::bracketed))]
pub fn bracketed_modal_parameters(
    alloc: Global,
    input: &mut Input<'_>,
    room: u32,
) -> Result<Items<Parameter>, ParseError>
    ensures { Reads (reading rules room (trees.bracketed trees.ModalParameters) input.old.rest.now)
        result input.new.rest.now }
{
    let left = input.open(room, TokenKind::Sign(Sign::LeftParen))?;
    let inner = if_modal_parameters(alloc, input, left)?;
    input.close(TokenKind::Sign(Sign::RightParen), inner)
}

// ---- the type of a function

/// RETURNS with its type (ISO/IEC 9075-2, 11.60), by the rule `returns_type`. On Ok the input
/// stands after it, else at the token that does not go on.
#[tactic(auto, unfolding(grammar_sql::specs::Definitions::returns_type))]
pub fn returns_type(input: &mut Input<'_>, room: u32) -> Result<DataType, ParseError>
    ensures { Reads (reading rules room definitions.returns_type input.old.rest.now) result
        input.new.rest.now }
{
    input.expect(TokenKind::Word(Word::Returns))?;
    data_type(input, room)
}

// ---- characteristics

fn characteristic_as(kind: CharacteristicKind, anchor: Anchor) -> Characteristic
    ensures { result ≡ definitions.characteristic_as kind anchor }
{
    Characteristic { anchor, kind }
}

#[tactic(auto, unfolding(grammar_sql::specs::Definitions::language))]
fn language(input: &mut Input<'_>, room: u32) -> Result<Characteristic, ParseError>
    ensures { Reads (reading rules room definitions.language input.old.rest.now) result
        input.new.rest.now }
{
    let token = input.expect(TokenKind::Word(Word::Language))?;
    let anchor = anchor_in(token);
    input.expect(TokenKind::Word(Word::Sql))?;
    Ok(characteristic_as(CharacteristicKind::LanguageSql, anchor))
}

#[tactic(auto, unfolding(grammar_sql::specs::Definitions::deterministic))]
fn deterministic(input: &mut Input<'_>, room: u32) -> Result<Characteristic, ParseError>
    ensures { Reads (reading rules room definitions.deterministic input.old.rest.now) result
        input.new.rest.now }
{
    let token = input.expect(TokenKind::Word(Word::Deterministic))?;
    let anchor = anchor_in(token);
    Ok(characteristic_as(CharacteristicKind::Deterministic, anchor))
}

#[tactic(auto, unfolding(grammar_sql::specs::Definitions::not_deterministic))]
fn not_deterministic(input: &mut Input<'_>, room: u32) -> Result<Characteristic, ParseError>
    ensures { Reads (reading rules room definitions.not_deterministic input.old.rest.now) result
        input.new.rest.now }
{
    let token = input.expect(TokenKind::Word(Word::Not))?;
    let anchor = anchor_in(token);
    input.expect(TokenKind::Word(Word::Deterministic))?;
    Ok(characteristic_as(CharacteristicKind::NotDeterministic, anchor))
}

#[tactic(auto, unfolding(grammar_sql::specs::Definitions::contains_sql))]
fn contains_sql(input: &mut Input<'_>, room: u32) -> Result<Characteristic, ParseError>
    ensures { Reads (reading rules room definitions.contains_sql input.old.rest.now) result
        input.new.rest.now }
{
    let token = input.expect(TokenKind::Word(Word::Contains))?;
    let anchor = anchor_in(token);
    input.expect(TokenKind::Word(Word::Sql))?;
    Ok(characteristic_as(CharacteristicKind::ContainsSql, anchor))
}

#[tactic(auto, unfolding(grammar_sql::specs::Definitions::data_access))]
fn data_access(input: &mut Input<'_>, room: u32) -> Result<(CharacteristicKind, Anchor), ParseError>
    ensures { Reads (reading rules room definitions.data_access input.old.rest.now) result
        input.new.rest.now }
{
    choice(
        input,
        room,
        TokenKind::Word(Word::Reads),
        CharacteristicKind::ReadsSqlData,
        &[(
            TokenKind::Word(Word::Modifies),
            CharacteristicKind::ModifiesSqlData,
        )],
    )
}

// READS SQL DATA or MODIFIES SQL DATA.
#[tactic(auto, unfolding(grammar_sql::specs::Definitions::data_characteristic))]
fn data_characteristic(input: &mut Input<'_>, room: u32) -> Result<Characteristic, ParseError>
    ensures { Reads (reading rules room definitions.data_characteristic input.old.rest.now) result
        input.new.rest.now }
{
    let access = data_access(input, room)?;
    input.expect(TokenKind::Word(Word::Sql))?;
    input.expect(TokenKind::Word(Word::Data))?;
    Ok(characteristic_as(access.0, access.1))
}

// RETURNS NULL, or CALLED.
#[tactic(auto, unfolding(grammar_sql::specs::Definitions::null_call))]
fn null_call(input: &mut Input<'_>, room: u32) -> Result<(CharacteristicKind, Anchor), ParseError>
    ensures { Reads (reading rules room definitions.null_call input.old.rest.now) result
        input.new.rest.now }
{
    let anchor = anchor(input);
    if input.eat(TokenKind::Word(Word::Returns)) {
        input.expect(TokenKind::Word(Word::Null))?;
        return Ok((CharacteristicKind::ReturnsNullOnNullInput, anchor));
    }
    input.expect(TokenKind::Word(Word::Called))?;
    Ok((CharacteristicKind::CalledOnNullInput, anchor))
}

// RETURNS NULL ON NULL INPUT or CALLED ON NULL INPUT.
#[tactic(auto, unfolding(grammar_sql::specs::Definitions::null_characteristic))]
fn null_characteristic(input: &mut Input<'_>, room: u32) -> Result<Characteristic, ParseError>
    ensures { Reads (reading rules room definitions.null_characteristic input.old.rest.now) result
        input.new.rest.now }
{
    let call = null_call(input, room)?;
    input.expect(TokenKind::Word(Word::On))?;
    input.expect(TokenKind::Word(Word::Null))?;
    input.expect(TokenKind::Word(Word::Input))?;
    Ok(characteristic_as(call.0, call.1))
}

#[tactic(auto, unfolding(grammar_sql::specs::Definitions::characteristic, grammar_sql::specs::Definitions::language, grammar_sql::specs::Definitions::deterministic, grammar_sql::specs::Definitions::not_deterministic, grammar_sql::specs::Definitions::contains_sql, grammar_sql::specs::Definitions::data_characteristic, grammar_sql::specs::Definitions::data_access))]
fn characteristic(input: &mut Input<'_>, room: u32) -> Result<Characteristic, ParseError>
    ensures { Reads (reading rules room definitions.characteristic input.old.rest.now) result
        input.new.rest.now }
{
    if input.sees(TokenKind::Word(Word::Language)) {
        return language(input, room);
    }
    if input.sees(TokenKind::Word(Word::Deterministic)) {
        return deterministic(input, room);
    }
    if input.sees(TokenKind::Word(Word::Not)) {
        return not_deterministic(input, room);
    }
    if input.sees(TokenKind::Word(Word::Contains)) {
        return contains_sql(input, room);
    }
    if input.sees_any(&[
        TokenKind::Word(Word::Reads),
        TokenKind::Word(Word::Modifies),
    ]) {
        return data_characteristic(input, room);
    }
    null_characteristic(input, room)
}

#[tactic(auto, unfolding(grammar_sql::specs::Definitions::characteristic, grammar_sql::specs::Definitions::language, grammar_sql::specs::Definitions::deterministic, grammar_sql::specs::Definitions::not_deterministic, grammar_sql::specs::Definitions::contains_sql, grammar_sql::specs::Definitions::data_characteristic, grammar_sql::specs::Definitions::null_characteristic, grammar_sql::specs::Definitions::data_access, grammar_sql::specs::Definitions::null_call))]
fn begins_characteristic(input: &Input<'_>) -> bool
    ensures { result ≡ begins (first definitions.characteristic) input.now.rest.now }
{
    input.sees_any(&[
        TokenKind::Word(Word::Language),
        TokenKind::Word(Word::Deterministic),
        TokenKind::Word(Word::Not),
        TokenKind::Word(Word::Contains),
        TokenKind::Word(Word::Reads),
        TokenKind::Word(Word::Modifies),
        TokenKind::Word(Word::Returns),
        TokenKind::Word(Word::Called),
    ])
}

/// The characteristics of a routine (ISO/IEC 9075-2, 11.60), of which there may be none, by the
/// rule `characteristics`. On Ok the input stands after the last one, else at the token that does
/// not go on.
#[tactic(auto, unfolding(grammar_sql::specs::Definitions::characteristics))]
pub fn characteristics(
    alloc: Global,
    input: &mut Input<'_>,
    room: u32,
) -> Result<Items<Characteristic>, ParseError>
    ensures { Reads (reading rules room definitions.characteristics input.old.rest.now) result
        input.new.rest.now }
{
    let mut found = Items::new(alloc);
    'more: while begins_characteristic(input) {
        match characteristic(input, room) {
            Ok(next) => found.push(next)?,
            Err(error) => return Err(error),
        }
    }
    Ok(found)
}
