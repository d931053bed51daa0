ghost use Rattle.std.specs.Prelude.{◌≡◌};
ghost use Rattle.readers.specs.Words.{word_of};

/// What of a session is limited in number while it is read.
#[derive(Clone, Copy, Debug)]
pub enum Limit {
    /// Cells of a model.
    Cells,
    /// Activity types of a model.
    Types,
    /// Parameters of an activity type.
    Parameters,
    /// Locals of a body, its parameters with them.
    Locals,
    /// Statements of a body, nested ones with them.
    Statements,
    /// Enums of a model.
    Enums,
    /// Variants of an enum.
    Variants,
    /// Resources of a model.
    Resources,
    /// Daemons of a model.
    Daemons,
    /// Requirements of an activity type.
    Requires,
    /// Blocks inside one another, or levels of an expression.
    Depth,
    /// Terms of a sum.
    Terms,
    /// Constraints of a model.
    Constraints,
    /// Goals of a model.
    Goals,
    /// Clients of a session.
    Clients,
    /// Commands of a client.
    Commands,
    /// Models of a session.
    Models,
    /// Mappings of a session.
    Mappings,
    /// Datasets of a session.
    Datasets,
    /// Rules of the sequence sections, in all.
    Rules,
    /// Steps of a sequence rule.
    Steps,
    /// Words of a step.
    Words,
}

impl Limit {
    /// The word by which a refusal names the limit.
    #[tactic(auto, unfolding(crate::specs::Words::word_of))]
    pub fn word(self) -> &'static str
        ensures { result.now ≡ word_of self }
    {
        match self {
            Limit::Cells => "cells",
            Limit::Types => "types",
            Limit::Parameters => "parameters",
            Limit::Locals => "locals",
            Limit::Statements => "statements",
            Limit::Enums => "enums",
            Limit::Variants => "variants",
            Limit::Resources => "resources",
            Limit::Daemons => "daemons",
            Limit::Requires => "requires",
            Limit::Depth => "depth",
            Limit::Terms => "terms",
            Limit::Constraints => "constraints",
            Limit::Goals => "goals",
            Limit::Clients => "clients",
            Limit::Commands => "commands",
            Limit::Models => "models",
            Limit::Mappings => "mappings",
            Limit::Datasets => "datasets",
            Limit::Rules => "rules",
            Limit::Steps => "steps",
            Limit::Words => "words",
        }
    }
}
