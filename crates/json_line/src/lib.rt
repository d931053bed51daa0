//! Long lines of JSON, written part by part into one buffer: no tree of values is built, and no part is copied. The text is
//! to the byte the compact text of serde_json.
#![tactic(auto)]

mod data;
mod lines;
mod parts;
mod paths;
mod trees;
mod values;

pub use data::{JsonData, JsonIn, JsonMember, JsonText};
pub use lines::JsonLine;
pub use parts::{line_of, line_of_in};
pub use trees::{line, object, text_value};
