//! Where the simulations of two plans part: the new one may begin at a state of the old one, with the directives exchanged in
//! which the plans differ. Lemmas alone.
#![tactic(auto)]

pub mod laws;
