//! Texts of sessions: the tokens that a text is cut into, and the place of a byte for a reader.
#![tactic(auto)]

mod bytes;
mod counts;
mod gaps;
mod longest;
mod numerals;
mod places;
mod quotes;
mod scanner;
mod sorts;
mod symbols;
mod text_error;
mod token;

pub use counts::count_of;
pub use places::{place_of, place_on};
pub use scanner::tokens;
pub use sorts::{Sort, sort_of_kind};
pub use text_error::TextError;
pub use token::{Token, TokenKind};
