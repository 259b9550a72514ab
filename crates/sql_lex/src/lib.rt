//! The tokens of a script.
#![tactic(auto)]

mod law;
mod lexer;
mod position;
mod sign;
mod step;
mod token;
mod token_list;
mod word;

pub use law::{each_script_has_one_lexing, each_token_is_the_longest};
pub use lexer::tokens;
use position::Position;
pub use sign::Sign;
pub use token::{Lexeme, Token, TokenKind};
pub use token_list::{Tokens, opens, place};
pub use word::Word;
