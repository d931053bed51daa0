//! Reading: what the marks of a model are, part by part.

mod assignment_operator;
mod body;
mod child_start;
mod declarations;
mod expressions;
mod invokes;
mod items;
mod literals;
mod models;
mod names;
mod statements;
mod types;
mod with_height;

pub use assignment_operator::AssignmentOperator;
pub use body::Body;
pub use declarations::Declarations;
pub use literals::{
    amount, amount_literal, literal, negated, optional_minus, truth_literal, with_minus,
};
pub use models::model;
pub use names::{OneName, one_standing_for, raw_name};
pub use with_height::WithHeight;
