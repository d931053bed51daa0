//! Tests of schedules from the text on, of what the program does not print: how many plans were simulated, and a plan whose ids
//! have come to their end. They stand here since a crate with tests inside is proved twice.
#![tactic(auto)]

#[cfg(test)]
mod counting;
#[cfg(test)]
mod rules;
#[cfg(test)]
mod schedules;
#[cfg(test)]
mod telling;
