//! How many of the first instants of an old run are known to be those of a new one too. Where plans differ in directives none of
//! which is due before a time, their simulations go alike until then, so nothing before it needs to be compared.

ghost use Rattle.std.specs.Prelude.{◌≡◌, ◌≤◌, ◌<◌, ◌+◌, ◌-◌, IsTrue, IfSome, drop, length, take};
ghost use Rattle.aerie_base.specs.plans.OfModel.{IsPlanOf};
ghost use Rattle.run_data.specs.Fresh.{IsFresh};
ghost use Rattle.run_data.specs.laws.Orders.{EachOf};
ghost use Rattle.run_data.specs.laws.Rising.{RiseFromStart};
ghost use Rattle.parting.specs.IdRanges.{is_id_between};
ghost use Rattle.resimulate.specs.EarlyEnds.{MayBeEnded};
ghost use Rattle.resimulate.specs.OldBatches.{AreEarly};
ghost use Rattle.resimulate.specs.Partings.{IsFreeAndLate, MayEndFrom, PartsBy, SharesFirst, SkipsTo, others_of};

use crate::early_ends::may_be_ended;
use crate::old_batches::is_earlier;
use aerie_base::{Directive, Model, Plan, Shared, Time};
use run_data::laws::{instants_rise, plans_that_differ_late_run_side_by_side};
use run_data::{Instant, Run};

/// Whether an id is in a range.
pub(crate) fn is_id_between(first: u32, past: u64, id: u32) -> bool
    ensures { result ≡ is_id_between first past id }
{
    if id < first {
        return false;
    }
    u64::from(id) < past
}

// ---- where plans part

/// Where two plans part: a range with the ids of the directives in which they differ, and a time before which none of these is due.
#[derive(Clone, Copy)]
pub struct Parting {
    /// The first id of the range.
    pub(crate) first: u32,
    /// The id behind its last.
    pub(crate) past: u64,
    /// The time.
    pub(crate) until: Time,
}

/// The lesser of two numbers.
fn lesser(one: usize, other: usize) -> usize
    ensures one { result ≤ one }
    ensures other { result ≤ other }
{
    if one <= other { one } else { other }
}

/// How many of the first directives are the same.
fn same_in_front(directives: &[Directive], others: &[Directive]) -> usize
    ensures within { result ≤ length directives.now }
    ensures old_within { result ≤ length others.now }
    ensures same { take result directives.now ≡ take result others.now }
{
    let most = lesser(directives.len(), others.len());
    for at in 0..most {
        if !directives[at].is_same(&others[at]) {
            return at;
        }
    }
    most
}

/// How many of the last directives are the same, where so many of the first are left out.
fn same_behind(directives: &[Directive], others: &[Directive], front: usize) -> usize
    requires within { front ≤ length directives.now }
    requires old_within { front ≤ length others.now }
    ensures within { front + result ≤ length directives.now }
    ensures old_within { front + result ≤ length others.now }
    ensures same { drop (length directives.now - result) directives.now
        ≡ drop (length others.now - result) others.now }
{
    let past = directives.len();
    let old_past = others.len();
    let most = lesser(past - front, old_past - front);
    for back in 0..most {
        let at = past - 1 - back;
        let to = old_past - 1 - back;
        if !directives[at].is_same(&others[to]) {
            return back;
        }
    }
    most
}

/// The index of the next directive that is not of the range, from this one on, or the number of all.
fn next_other(first: u32, past: u64, directives: &[Directive], from: usize) -> usize
    ensures { SkipsTo first past directives.now from result }
{
    for at in from..directives.len() {
        if !is_id_between(first, past, directives[at].id) {
            return at;
        }
    }
    directives.len()
}

/// Whether an index is that of the first of so many at the end.
fn is_at(index: usize, past: usize, behind: usize) -> bool
    requires { behind ≤ past }
    ensures { IsTrue result → index ≡ past - behind }
{
    index == past - behind
}

/// Whether plans are the same but for the directives of a range, where so many of the first and of the last are the same.
fn are_same_otherwise(
    parting: &Parting,
    directives: &[Directive],
    others: &[Directive],
    front: usize,
    behind: usize,
) -> bool
    requires front { take front directives.now ≡ take front others.now }
    requires behind { drop (length directives.now - behind) directives.now
        ≡ drop (length others.now - behind) others.now }
    requires within { behind ≤ length directives.now }
    requires old_within { behind ≤ length others.now }
    ensures { IsTrue result →
        others_of parting.now.first parting.now.past directives.now
        ≡ others_of parting.now.first parting.now.past others.now }
{
    let past = directives.len();
    let old_past = others.len();
    let next = next_other(parting.first, parting.past, directives, front);
    if !is_at(next, past, behind) {
        return false;
    }
    let old_next = next_other(parting.first, parting.past, others, front);
    if !is_at(old_next, old_past, behind) {
        return false;
    }
    true
}

/// Whether a directive has no anchor, and a start that is not before a time if it is of a range.
fn is_plainly_late(parting: &Parting, directive: &Directive) -> bool
    ensures { IsTrue result →
        IsFreeAndLate parting.now.first parting.now.past parting.now.until directive.now }
{
    directive.anchor.is_none()
        && (parting.until <= directive.start
            || !is_id_between(parting.first, parting.past, directive.id))
}

/// Whether all of these have.
fn are_plainly_late(parting: &Parting, directives: &[Directive]) -> bool
    ensures { IsTrue result →
        EachOf (IsFreeAndLate parting.now.first parting.now.past parting.now.until) directives.now }
{
    for directive in directives {
        if !is_plainly_late(parting, directive) {
            return false;
        }
    }
    true
}

/// A parting of which a directive is one, where there is such a directive.
fn with_directive(parting: Parting, directive: Option<&Directive>) -> Parting {
    match directive {
        Some(one) => Parting {
            first: parting.first.min(one.id),
            past: parting.past.max(u64::from(one.id) + 1),
            until: parting.until.min(one.start),
        },
        None => parting,
    }
}

/// A parting of which those are between the same directives in front and behind.
fn with_between(
    parting: Parting,
    directives: &[Directive],
    front: usize,
    behind: usize,
) -> Parting {
    let mut whole = parting;
    for at in front..directives.len().saturating_sub(behind) {
        whole = with_directive(whole, directives.get(at));
    }
    whole
}

/// Where two plans part, unless a directive of either has an anchor: whether an anchor has come is told by all frames alone. It goes over
/// both plans once.
pub(crate) fn parting_of(plan: &Plan, old_plan: &Plan) -> Option<Parting>
    ensures { PartsBy plan.now old_plan.now result }
{
    let directives = plan.directives.as_slice();
    let others = old_plan.directives.as_slice();
    let front = same_in_front(directives, others);
    let behind = same_behind(directives, others, front);
    let none = Parting {
        first: u32::MAX,
        past: 0,
        until: plan.duration,
    };
    let mine = with_between(none, directives, front, behind);
    let parting = with_between(mine, others, front, behind);
    if !are_same_otherwise(&parting, directives, others, front, behind) {
        return None;
    }
    if !are_plainly_late(&parting, directives) {
        return None;
    }
    if !are_plainly_late(&parting, others) {
        return None;
    }
    Some(parting)
}

// ---- first instants

/// How many of these instants are before a time.
fn earlier_than(instants: &[Shared<Instant>], until: Time) -> usize
    requires { RiseFromStart instants.now }
    ensures bound { result ≤ length instants.now }
    ensures early { AreEarly until result instants.now }
{
    instants.partition_point(|instant| is_earlier(instant, until))
}

/// Whether a time is behind the start of a plan.
fn is_later(until: Time) -> bool
    ensures { IsTrue result → 0 < until }
{
    Time::zero() < until
}

/// How many of the first instants of the old run are known to be those of the new one, as far as that comes.
fn shared_instants(
    model: &Model,
    plan: &Plan,
    bound: u64,
    old: &Run,
    parting: &Option<Parting>,
) -> usize
    requires plan { IsPlanOf model.now plan.now }
    requires fresh { IsFresh model.now old.now.plan old.now.bound old.now }
    requires old_plan { IsPlanOf model.now old.now.plan }
    requires may { MayBeEnded plan.now old.now }
    requires parting { PartsBy plan.now old.now.plan parting.now }
    ensures { SharesFirst model.now plan.now bound old.now result }
{
    plans_that_differ_late_run_side_by_side();
    instants_rise();
    let _ = model.cells();
    if bound < old.bound {
        return 0;
    }
    let Some(place) = parting else {
        return 0;
    };
    if !is_later(place.until) {
        return 0;
    }
    earlier_than(old.instants.as_slice(), place.until)
}

/// Whether a simulation may end with the rest of an old run, and how many of its first instants are shared then.
pub(crate) fn may_end_from(
    model: &Model,
    plan: &Plan,
    bound: u64,
    old: &Run,
    parting: &Option<Parting>,
) -> Option<usize>
    requires plan { IsPlanOf model.now plan.now }
    requires fresh { IsFresh model.now old.now.plan old.now.bound old.now }
    requires old_plan { IsPlanOf model.now old.now.plan }
    requires parting { PartsBy plan.now old.now.plan parting.now }
    ensures { IfSome result (λ count. MayEndFrom model.now plan.now bound old.now count) }
{
    if !may_be_ended(plan, old) {
        return None;
    }
    Some(shared_instants(model, plan, bound, old, parting))
}
