//! Models as they are written: what a reader of a session's text makes of a model before its names are looked up and
//! its types are checked.
#![tactic(auto)]

pub mod laws;
mod model_answers;
mod raw;
mod read_error;
mod reading;

pub use model_answers::{error_of, read_model};
pub use raw::{
    RawExpr, RawExprKind, RawInvoke, RawItem, RawLiteral, RawLiteralKind, RawModel, RawName,
    RawParameter, RawPart, RawRead, RawStmt, RawStmtKind, RawType,
};
pub use read_error::ReadError;
pub use reading::{
    OneName, amount, amount_literal, literal, model, negated, one_standing_for, optional_minus,
    raw_name, truth_literal, with_minus,
};
