//! Which limit is passed, by the word that names it.

ghost use Rattle.std.specs.Prelude.{◌≡◌, map};
ghost use Rattle.explain.specs.LimitCauses.{limit_cause as limit_cause_by, limit_in as limit_in_by};

use crate::causes::Cause;

/// The words, each with its cause.
const LIMIT_CAUSES: [(&str, Cause); 22] = [
    ("cells", Cause::ManyCells),
    ("types", Cause::ManyTypes),
    ("parameters", Cause::ManyParameters),
    ("locals", Cause::ManyLocals),
    ("statements", Cause::ManyStatements),
    ("enums", Cause::ManyEnums),
    ("variants", Cause::ManyVariants),
    ("resources", Cause::ManyResources),
    ("daemons", Cause::ManyDaemons),
    ("requires", Cause::ManyRequires),
    ("depth", Cause::TooDeep),
    ("terms", Cause::ManyTerms),
    ("constraints", Cause::ManyConstraints),
    ("goals", Cause::ManyGoals),
    ("clients", Cause::ManyClients),
    ("commands", Cause::ManyCommands),
    ("models", Cause::ManyModels),
    ("mappings", Cause::ManyMappings),
    ("datasets", Cause::ManyDatasets),
    ("rules", Cause::ManyRules),
    ("steps", Cause::ManySteps),
    ("words", Cause::ManyWords),
];

/// What a word stands for in a table.
fn limit_in(table: &[(&str, Cause)], word: &str) -> Cause
    ensures { result ≡ limit_in_by (map (λ entry. (entry.0.now, entry.1)) table.now) word.now }
{
    for (name, cause) in table {
        if *name == word {
            return *cause;
        }
    }
    Cause::Refused
}

/// The cause where the limit of this word is passed.
#[tactic(auto, unfolding(crate::specs::LimitCauses::limit_cause))]
pub(crate) fn limit_cause(word: &str) -> Cause
    ensures { result ≡ limit_cause_by word.now }
{
    limit_in(&LIMIT_CAUSES, word)
}
