//! Edits of plans: directives are added, removed, moved and given other arguments, whole plans are read and taken to
//! another model. Each edit gives the edited plan, or the first refusal that applies and the plan as it was.
#![tactic(auto)]

mod adding;
mod arguments;
mod changing;
mod copying;
mod cycles;
mod errors;
mod forms;
mod items;
mod loading;
mod mappings;
mod migrating;
mod moving;
mod placing;
mod removing;
mod setting;
mod unmet;

pub use adding::add;
pub use copying::copy_plan;
pub use errors::{EditError, MigrateError};
pub use loading::read_plan_json;
pub use mappings::{Feed, Mapping, TypeRule};
pub use migrating::migrate;
pub use moving::move_to;
pub use removing::remove;
pub use setting::set_argument;
pub use unmet::unmet_require;
