//! Rules as they are written, checked against a model: constraints and sequences, and the parts that goals have too.
#![tactic(auto)]

mod causes;
mod constraint;
pub mod laws;
mod literals;
mod names;
mod rule_error;
mod sequence;
mod window;

pub use causes::WrongRule;
pub use constraint::read_constraints;
pub use literals::{
    activity_named, judge_literal, known_parameter, literal_kind, literal_value,
    parameters_if_known,
};
pub use names::is_of_kind;
pub use rule_error::{RuleError, form_error, refusal_error};
pub use sequence::read_sequence;
pub use window::meaning::{number_of_type, signed_time, time_within, window_of};
pub use window::refusals::{judge_type, judge_window};
