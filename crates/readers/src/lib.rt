//! What readers of languages are made of: grammars as data, with the theorem by which a reader that looks one token ahead
//! is proved; and readers over the tokens of a text. `example` shows how a reader is written.
#![tactic(auto)]

mod copies;
pub mod example;
mod limits;
mod lines;
mod lists;
mod reader;
mod refusal;
mod words;

pub use copies::{RawData, copy_both};
pub use limits::Limit;
pub use lists::{Element, Most, listed, optional_list, parenthesized, row, separated};
pub use reader::Reader;
pub use refusal::Refusal;
pub use words::{ended_by, one_of};
