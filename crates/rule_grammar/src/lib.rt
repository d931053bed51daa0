//! Rules as they are written: constraints, goals and sequences, before their names are looked up.
#![tactic(auto)]

pub mod laws;
mod raw;
mod reading;
mod rule_answers;
mod rule_form_error;

pub use raw::{
    RawAnchor, RawConstraint, RawGoal, RawGoalKind, RawNumber, RawRange, RawRule, RawSendTest,
    RawSequenceItem, RawSequenceRule, RawStep, RawTemplate, RawTerm, RawTested, RawWindow, RawWord,
    RawWordKind,
};
pub use rule_answers::{read_raw_constraints, read_raw_goals, read_raw_sequence};
pub use rule_form_error::RuleFormError;
