//! Goals of texts.

ghost use Rattle.std.specs.Prelude.{◌<◌, IfSome, IsTrue, length};
ghost use Rattle.std.specs.List.{list_all};
ghost use Rattle.aerie_text.specs.Marks.{AreTokensWithin};
ghost use Rattle.goals.specs.OfModel.{is_goal};

use aerie_base::{List, Model, Time};
use aerie_text::{Token, tokens};
use goal_check::read_goals;
use goals::Goal;
use std::alloc::Global;

/// The goals that the tokens of a text are.
fn goals_on(
    alloc: Global,
    text: &str,
    tokens: &[Token],
    model: &Model,
    duration: Time,
) -> Option<List<Goal>>
    requires short { length text.now < 4_294_967_295 }
    requires tokens { AreTokensWithin text.now tokens.now }
    ensures { IfSome result (λ all. IsTrue (list_all (is_goal model.now) all)) }
{
    read_goals(alloc, text, tokens, model, duration, &[], &[]).ok()
}

/// The goals that a text is, for a plan that lasts so long.
pub(crate) fn goals_in(
    alloc: Global,
    text: &str,
    model: &Model,
    duration: Time,
) -> Option<List<Goal>>
    ensures { IfSome result (λ all. IsTrue (list_all (is_goal model.now) all)) }
{
    if text.len() >= 4_294_967_295 {
        return None;
    }
    let tokens = tokens(alloc, text).ok()?;
    goals_on(alloc, text, tokens.as_slice(), model, duration)
}
