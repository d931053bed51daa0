//! The parts of a model as they are written: names stand for what they are to name, and each part knows its place.

mod expressions;
mod invokes;
mod items;
mod literals;
mod models;
mod names;
mod reads;
mod statements;
mod types;

pub use expressions::{RawExpr, RawExprKind};
pub use invokes::RawInvoke;
pub use items::{RawItem, RawParameter};
pub use literals::{RawLiteral, RawLiteralKind};
pub use models::RawModel;
pub use names::RawName;
pub use reads::{RawPart, RawRead};
pub use statements::{RawStmt, RawStmtKind};
pub use types::RawType;
