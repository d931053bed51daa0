//! What the text of a session means.

use crate::sections::TokenRange;
use aerie_base::{List, Model, Name, Plan, Shared};
use commands::Command;
use dataset_in::Series;
use epoch_text::Start;
use plan_edit::Mapping;

/// A model with its sections of rules. Of each section stands here the number of the first token of the rules and that of the
/// token behind them, counted from 0 in the tokens of the whole text.
#[derive(Drop)]
pub struct ModelPart {
    /// The model.
    pub model: Shared<Model>,
    /// Its constraints.
    pub constraints: Option<TokenRange>,
    /// Its goals.
    pub goals: Option<TokenRange>,
    /// Its rules of sequences.
    pub sequence: Option<TokenRange>,
}

/// A client.
#[derive(Drop)]
pub struct Client {
    /// Its name, which no other client has.
    pub name: Name,
    /// At most 4,096 commands, in order.
    pub commands: List<Command>,
}

/// A session.
#[derive(Drop)]
pub struct Session {
    /// 1 to 4 models of different names.
    pub models: List<ModelPart>,
    /// How plans go from one of the models to another.
    pub mappings: List<Mapping>,
    /// The instant of the plans' time 0.
    pub start: Start,
    /// The first branch.
    pub branch: Name,
    /// Its plan, of the first model.
    pub plan: Plan,
    /// Series from outside, by names that no other one and no resource has.
    pub datasets: List<(Name, Shared<Series>)>,
    /// At most 16 clients of different names.
    pub clients: List<Client>,
}
