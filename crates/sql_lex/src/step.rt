//! What stands at the head of some bytes: a token, or a part of what stands between tokens.

ghost use Rattle.std.specs.Prelude.{◌≡◌, ◌<◌, true, IfOk, length, not, string_bytes};
ghost use Rattle.std.specs.List.{list_all, prefix_len};
ghost use Rattle.std.specs.Str.{chars};
ghost use Rattle.sql_texts.specs.Names.{is_letter, is_digit, is_name_part as is_part_of_name};
ghost use Rattle.sql_texts.specs.Names.{begins_by};
ghost use Rattle.sql_lex.specs.Tokens.{is_line_feed};
ghost use Rattle.sql_lex.specs.Scan.{begins_with as begins_with_both, block_step};
ghost use Rattle.sql_lex.specs.Scan.{close_end as end_of_comment, line_step};
ghost use Rattle.sql_lex.specs.Scan.{long_sign as sign_of_two, number_of as number_of_digits};
ghost use Rattle.sql_lex.specs.Scan.{number_step, short_sign as sign_of_one, sign_step, step_of};
ghost use Rattle.sql_lex.specs.Scan.{text_of as text_of_bytes, text_step};
ghost use Rattle.sql_lex.specs.Scan.{text_token as step_over_text};
ghost use Rattle.sql_lex.specs.Scan.{text_within as text_within_limit, unquoted as text_after};
ghost use Rattle.sql_lex.specs.Scan.{width_in_text as width_in_quotes, word_step, IsUnquoted};

use crate::word::reserved;
use crate::{Lexeme, Sign};
use sql_texts::{MOST_NAME, MOST_TEXT, Name, NoMemory, Text};
use std::alloc::Global;

// The greatest number that a script may write.
const MOST_NUMBER: u64 = 0x7fff_ffff_ffff_ffff;

/// What stands at the head of some bytes, and how many bytes it takes.
#[derive(Debug, Drop)]
pub(crate) enum Step {
    /// A part of what stands between tokens.
    Gap(usize),
    Token(Lexeme, usize),
    /// Nothing that a script may hold.
    Bad,
}

/// What stands at the head of the bytes.
pub(crate) fn next_step(alloc: Global, bytes: &[u8]) -> Result<Step, NoMemory>
    requires { 0 < length bytes.now }
    ensures { IfOk result (λ s. s ≡ step_of bytes.now) }
{
    match bytes[0] {
        b' ' | b'\t' | b'\r' | b'\n' => Ok(Step::Gap(1)),
        b'A'..=b'Z' | b'a'..=b'z' => word(alloc, bytes),
        b'0'..=b'9' => Ok(number(bytes)),
        b'\'' => text(alloc, bytes),
        _ if begins_with(bytes, b'-', b'-') => Ok(Step::Gap(line_width(bytes))),
        _ if begins_with(bytes, b'/', b'*') => Ok(block_comment(bytes)),
        _ => Ok(sign(bytes)),
    }
}

// Whether the bytes begin with these two.
fn begins_with(bytes: &[u8], first: u8, second: u8) -> bool
    ensures { result ≡ begins_with_both first second bytes.now }
{
    bytes.len() > 1 && bytes[0] == first && bytes[1] == second
}

// Whether a byte may stand after a name's first letter.
fn is_name_part(b: u8) -> bool
    ensures { result ≡ is_part_of_name b }
{
    b.is_ascii_alphanumeric() || b == b'_'
}

// How many letters, digits and `_` stand at the head.
fn name_width(bytes: &[u8]) -> usize
    ensures { result ≡ prefix_len is_part_of_name bytes.now }
{
    bytes.iter().take_while(|b| is_name_part(**b)).count()
}

// The name or the reserved word at the head.
fn word(alloc: Global, bytes: &[u8]) -> Result<Step, NoMemory>
    requires { begins_by is_letter bytes.now ≡ true }
    ensures { IfOk result (λ s. s ≡ word_step bytes.now) }
{
    let width = name_width(bytes);
    if width > MOST_NAME {
        return Ok(Step::Bad);
    }
    let name = Name::folded(alloc, &bytes[..width])?;
    Ok(match reserved(name.as_bytes()) {
        Some(word) => Step::Token(Lexeme::Word(word), width),
        None => Step::Token(Lexeme::Name(name), width),
    })
}

// How many digits stand at the head.
fn digits_width(bytes: &[u8]) -> usize
    ensures { result ≡ prefix_len is_digit bytes.now }
{
    bytes.iter().take_while(|b| b.is_ascii_digit()).count()
}

// The number that digits write, where it is in range.
fn number_of(digits: &[u8]) -> Option<i64>
    requires { list_all is_digit digits.now ≡ true }
    ensures { result ≡ number_of_digits digits.now }
{
    let mut number = 0;
    for b in digits {
        let digit = u64::from(*b - b'0');
        if number > (MOST_NUMBER - digit) / 10 {
            return None;
        }
        number = 10 * number + digit;
    }
    Some(number as i64)
}

// The number at the head.
fn number(bytes: &[u8]) -> Step
    ensures { result ≡ number_step bytes.now }
{
    let width = digits_width(bytes);
    if width < bytes.len() && is_name_part(bytes[width]) {
        return Step::Bad;
    }
    match number_of(&bytes[..width]) {
        Some(number) => Step::Token(Lexeme::Number(number), width),
        None => Step::Bad,
    }
}

// How many bytes the byte at the head of a text's rest takes: two, where it is a quote written
// twice. `None` at the quote that closes the text.
fn width_in_text(bytes: &[u8]) -> Option<usize>
    requires { 0 < length bytes.now }
    ensures { result ≡ width_in_quotes bytes.now }
{
    if bytes[0] != b'\'' {
        Some(1)
    } else if begins_with(bytes, b'\'', b'\'') {
        Some(2)
    } else {
        None
    }
}

// The bytes of a text whose opening quote stands before, added to what is there, and how many bytes
// it took with its closing quote; `None` where there is no such quote.
fn unquoted(bytes: &[u8], text: &mut Vec<u8>) -> Result<Option<usize>, NoMemory>
    ensures { IfOk result (λ width. IsUnquoted (text_after bytes.now) text.old.items text.new.items
        width) }
{
    let mut at = 0;
    while at < bytes.len() {
        let Some(width) = width_in_text(&bytes[at..]) else {
            return Ok(Some(at + 1));
        };
        text.push(bytes[at])?;
        at += width;
    }
    Ok(None)
}

// How many characters a text has.
fn characters_in(text: &str) -> usize
    ensures { result ≡ length (chars text.now) }
{
    text.chars().count()
}

// The text of these characters, where they are within the limit.
fn text_within(alloc: Global, characters: String) -> Result<Option<Text>, NoMemory>
    ensures { IfOk result (λ t. t ≡ text_within_limit (chars (string_bytes characters))) }
{
    if characters_in(&characters) > MOST_TEXT {
        Ok(None)
    } else {
        Ok(Some(Text::of(alloc, characters)?))
    }
}

// The text of these bytes, where they are UTF-8 and within the limit.
fn text_of(alloc: Global, bytes: Vec<u8>) -> Result<Option<Text>, NoMemory>
    ensures { IfOk result (λ t. t ≡ text_of_bytes bytes.items) }
{
    match String::from_utf8(bytes) {
        Ok(characters) => text_within(alloc, characters),
        Err(_not_utf8) => Ok(None),
    }
}

// The text at the head.
fn text(alloc: Global, bytes: &[u8]) -> Result<Step, NoMemory>
    requires { 0 < length bytes.now }
    ensures { IfOk result (λ s. s ≡ text_step bytes.now) }
{
    let mut text = Vec::new(alloc);
    match unquoted(&bytes[1..], &mut text)? {
        None => Ok(Step::Bad),
        Some(width) => Ok(text_token(text_of(alloc, text)?, 1 + width)),
    }
}

// The step over a text, where it is one.
fn text_token(text: Option<Text>, width: usize) -> Step
    ensures { result ≡ step_over_text text width }
{
    match text {
        Some(text) => Step::Token(Lexeme::Text(text), width),
        None => Step::Bad,
    }
}

// How many bytes the comment at the head takes, from its `--` up to the end of the line.
fn line_width(bytes: &[u8]) -> usize
    ensures { result ≡ prefix_len (λ b. not (is_line_feed b)) bytes.now }
{
    bytes.iter().take_while(|b| **b != b'\n').count()
}

// How many bytes stand up to the first `*/` and with it.
fn close_end(bytes: &[u8]) -> Option<usize>
    ensures { result ≡ end_of_comment bytes.now }
{
    let mut at = 0;
    while at < bytes.len() {
        if begins_with(&bytes[at..], b'*', b'/') {
            return Some(at + 2);
        }
        at += 1;
    }
    None
}

// The comment from `/*` to the next `*/` at the head.
fn block_comment(bytes: &[u8]) -> Step
    requires { 1 < length bytes.now }
    ensures { result ≡ block_step bytes.now }
{
    match close_end(&bytes[2..]) {
        Some(width) => Step::Gap(2 + width),
        None => Step::Bad,
    }
}

// The sign of two characters.
fn long_sign(first: u8, second: u8) -> Option<Sign>
    ensures { result ≡ sign_of_two first second }
{
    match (first, second) {
        (b'<', b'>') => Some(Sign::NotEquals),
        (b'<', b'=') => Some(Sign::LessThanOrEquals),
        (b'>', b'=') => Some(Sign::GreaterThanOrEquals),
        (b'|', b'|') => Some(Sign::Concatenation),
        _ => None,
    }
}

// The sign of one character.
fn short_sign(first: u8) -> Option<Sign>
    ensures { result ≡ sign_of_one first }
{
    match first {
        b'(' => Some(Sign::LeftParen),
        b')' => Some(Sign::RightParen),
        b',' => Some(Sign::Comma),
        b';' => Some(Sign::Semicolon),
        b':' => Some(Sign::Colon),
        b'.' => Some(Sign::Period),
        b'?' => Some(Sign::QuestionMark),
        b'=' => Some(Sign::Equals),
        b'<' => Some(Sign::LessThan),
        b'>' => Some(Sign::GreaterThan),
        b'+' => Some(Sign::Plus),
        b'-' => Some(Sign::Minus),
        b'*' => Some(Sign::Asterisk),
        b'/' => Some(Sign::Solidus),
        _ => None,
    }
}

// The sign at the head: the longer one, where two characters are one.
fn sign(bytes: &[u8]) -> Step
    requires { 0 < length bytes.now }
    ensures { result ≡ sign_step bytes.now }
{
    let second = bytes.get(1).copied().unwrap_or(0);
    match (long_sign(bytes[0], second), short_sign(bytes[0])) {
        (Some(sign), _) => Step::Token(Lexeme::Sign(sign), 2),
        (None, Some(sign)) => Step::Token(Lexeme::Sign(sign), 1),
        (None, None) => Step::Bad,
    }
}
