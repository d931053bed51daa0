//! Bookmarks behind an edit: where the simulation of the edited plan is alike with the old one again, they are bookmarks of it as well.

ghost use Rattle.std.specs.Prelude.{◌≡◌, ◌≤◌, ◌++◌, [], IfOk, OnOk, IfSome};
ghost use Rattle.aerie_base.specs.Ranges.{step_limit};
ghost use Rattle.run_data.specs.laws.RunCosts.{cost_of_instants};
ghost use Rattle.engine_core.specs.EngineStates.{instants_in, jobs_in, spent_in};
ghost use Rattle.resimulate.specs.Bookmarks.{IsMarkOf, IsMarked};
ghost use Rattle.resimulate.specs.EarlyEnds.{AreAlikeBehind};
ghost use Rattle.resimulate.specs.Followed.{ComeBehind, IsSpentThere};
ghost use Rattle.resimulate.specs.SharedEnds.{ShareFirst};

use crate::costs::cost_of_others;
use crate::marks::Marks;
use aerie_base::{List, Model, OutOfMemory, Plan, Shared};
use engine_core::{Bookmark, Engine};
use run_data::laws::{reached_states_are_of_the_model, rest_of_old_run_is_taken_over};
use run_data::{Instant, Run};
use std::alloc::Global;

/// Puts instants behind others. They are shared.
fn put_shared(
    instants: &mut List<Shared<Instant>>,
    more: &[Shared<Instant>],
) -> Result<(), OutOfMemory>
    ensures { OnOk result (instants.new ≡ instants.old ++ more.now) }
{
    for instant in more {
        instants.push(instant.share()?)?;
    }
    Ok(())
}

/// Some instants, and behind them those of others that stand behind so many.
fn with_later(
    alloc: Global,
    instants: &[Shared<Instant>],
    others: &[Shared<Instant>],
    many: usize,
) -> Result<Option<List<Shared<Instant>>>, OutOfMemory>
    ensures { IfOk result (λ found. IfSome found (ComeBehind instants.now others.now many)) }
{
    if others.len() < many {
        return Ok(None);
    }
    let later = others.split_at(many).1;
    let mut all = List::with_capacity(alloc, instants.len().saturating_add(later.len()))?;
    put_shared(&mut all, instants)?;
    put_shared(&mut all, later)?;
    Ok(Some(all))
}

/// What the new simulation spent until a place where the old one spent so much, if the bound pays for that. At an earlier place they
/// spent these.
fn spent_there(later: u64, old_spent: u64, spent: u64, bound: u64) -> Option<u64>
    ensures { IfSome result (IsSpentThere later old_spent spent bound) }
{
    let since = later.checked_sub(old_spent)?;
    let whole = spent.checked_add(since)?;
    if whole > bound {
        return None;
    }
    Some(whole)
}

/// A bookmark of an old simulation as one of a new one, if it stands behind these instants of the old one, where the two are alike,
/// and the bound pays for what lies between.
#[allow(clippy::too_many_arguments)]
fn followed(
    alloc: Global,
    bookmark: Bookmark,
    plan: &Shared<Plan>,
    bound: u64,
    instants: &[Shared<Instant>],
    spent: u64,
    old_instants: &[Shared<Instant>],
    old_spent: u64,
) -> Result<Option<Bookmark>, OutOfMemory>
    requires bound { bound ≤ step_limit }
    requires alike { AreAlikeBehind bookmark.model plan.now bookmark.plan bound bookmark.bound
        instants.now spent old_instants.now }
    requires cost { old_spent ≡ cost_of_instants old_instants.now }
    ensures { IfOk result (λ found. IfSome found (IsMarkOf bookmark.model plan.now bound)) }
{
    reached_states_are_of_the_model();
    rest_of_old_run_is_taken_over();
    let _ = bookmark.model();
    let Some(whole) = spent_there(bookmark.spent(), old_spent, spent, bound) else {
        return Ok(None);
    };
    let Some(all) = with_later(alloc, instants, bookmark.settled(), old_instants.len())? else {
        return Ok(None);
    };
    let made = bookmark.moved(plan.share()?, bound, all, whole);
    Ok(Some(made))
}

impl Marks {
    /// Takes over the bookmarks of an old run that stand behind these instants of it, where an engine of this simulation is alike with
    /// the old one, with which it shares so many of the first instants. The last bookmarks stand in front. Where there is no memory for
    /// them there are fewer.
    #[allow(clippy::too_many_arguments)]
    pub(crate) fn follow<'a>(
        &mut self,
        alloc: Global,
        late: Marks,
        model: &Model,
        old: &Run,
        engine: &Engine<'a>,
        old_instants: &[Shared<Instant>],
        first: usize,
    )
        requires model { self.old.model ≡ model.now }
        requires late { IsMarked model.now old.now.plan old.now.bound late }
        requires bound { self.old.bound ≤ step_limit }
        requires job { jobs_in engine.now.point ≡ [] → ⊥ }
        requires alike { AreAlikeBehind model.now self.old.plan old.now.plan self.old.bound old.now.bound
            (instants_in engine.now.point) (spent_in engine.now.point) old_instants.now }
        requires first { ShareFirst (instants_in engine.now.point) old_instants.now first }
        ensures { self.new ≡ self.old }
    {
        rest_of_old_run_is_taken_over();
        let (_, _) = (model, old);
        let instants = engine.instants();
        let spent = engine.spent();
        let Some(old_spent) = cost_of_others(spent, instants, old_instants, first) else {
            return;
        };
        let mut late = late;
        for _bookmark in 0..late.bookmarks.len() {
            let Some(bookmark) = late.take_last() else {
                return;
            };
            let made = followed(
                alloc,
                bookmark,
                &self.plan,
                self.bound,
                instants,
                spent,
                old_instants,
                old_spent,
            );
            if let Ok(Some(made)) = made {
                self.put(made);
            }
        }
    }
}
