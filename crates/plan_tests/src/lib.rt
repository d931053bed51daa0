//! Worked cases of plans that are shown, written and loaded, computed from the definitions of `plan_edit`. They stand here, and not
//! in its `specs/`, since every crate above it would load them.
#![tactic(auto)]
