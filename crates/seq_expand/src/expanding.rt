//! The commands of a run.

ghost use Rattle.std.specs.Prelude.{◌≡◌, IfOk, map, not, IsTrue};
ghost use Rattle.std.specs.List.{filter, list_all};
ghost use Rattle.run_data.specs.Fresh.{IsFresh};
ghost use Rattle.span_table.specs.AsDefined.{defined_span};
ghost use Rattle.span_table.specs.SpanLaws.{AreSpansOf};
ghost use Rattle.seq_expand.specs.Expanding.{sequence_of, is_in_plan};
ghost use Rattle.seq_expand.specs.OfModel.{have_shifts};
ghost use Rattle.seq_expand.specs.Sending.{sent_by_spans as sent_by_all};

use crate::closeness::close_positions;
use crate::order::by_time;
use crate::rules::Sequencing;
use crate::sending::{send_steps, steps_for};
use crate::sequence::{Sent, Sequence};
use aerie_base::{List, Model, OutOfMemory, Time};
use run_data::Run;
use span_table::{Span, spans};
use std::alloc::Global;

/// Commands within the plan, and those outside.
#[derive(Drop)]
struct Parted {
    within: Vec<Sent>,
    outside: Vec<Sent>,
}

/// Whether a command's time is one of the plan.
fn is_within(duration: Time, sent: &Sent) -> bool
    ensures { result ≡ is_in_plan duration sent.now }
{
    0 <= sent.at && sent.at < duration.get()
}

/// The commands of spans, in their order.
fn sent_by_spans(
    alloc: Global,
    rules: &Sequencing,
    spans: &[Span],
) -> Result<Vec<Sent>, OutOfMemory>
    requires { IsTrue (list_all have_shifts rules.now.rules) }
    ensures { IfOk result (λ sent. sent.items ≡ sent_by_all rules.now.rules (map defined_span spans.now)) }
{
    let mut sent = Vec::new(alloc);
    for span in spans {
        send_steps(
            alloc,
            span,
            steps_for(span.kind, rules.rules.as_slice()),
            &mut sent,
        )?;
    }
    Ok(sent)
}

/// Commands with a time of the plan, and the others.
fn parted_by_time(alloc: Global, duration: Time, sent: Vec<Sent>) -> Result<Parted, OutOfMemory>
    ensures within { IfOk result (λ parted. parted.within.items ≡ filter (is_in_plan duration) sent.items) }
    ensures outside { IfOk result (λ parted. parted.outside.items ≡ filter (λ one. not (is_in_plan duration one)) sent.items) }
{
    let mut within = Vec::new(alloc);
    let mut outside = Vec::new(alloc);
    for one in sent {
        if is_within(duration, &one) {
            within.push(one)?;
        } else {
            outside.push(one)?;
        }
    }
    Ok(Parted { within, outside })
}

/// The commands of the model's fresh run by the rules: those with a time within the plan and those outside, each by time, then
/// in the order of the spans and of the steps; and which of them stand too close.
pub fn expand(
    alloc: Global,
    model: &Model,
    rules: &Sequencing,
    run: &Run,
) -> Result<Sequence, OutOfMemory>
    requires fresh { IsFresh model.now run.now.plan run.now.bound run.now }
    requires rules { IsTrue (list_all have_shifts rules.now.rules) }
    ensures { IfOk result (λ sequence. sequence ≡ sequence_of model.now rules.now run.now) }
{
    let spans = spans(alloc, model, run)?;
    expand_beside(alloc, model, rules, run, &spans)
}

/// The same where the spans of the run are at hand.
pub fn expand_beside(
    alloc: Global,
    model: &Model,
    rules: &Sequencing,
    run: &Run,
    spans: &[Span],
) -> Result<Sequence, OutOfMemory>
    requires spans { AreSpansOf model.now run.now spans.now }
    requires rules { IsTrue (list_all have_shifts rules.now.rules) }
    ensures { IfOk result (λ sequence. sequence ≡ sequence_of model.now rules.now run.now) }
{
    let _ = model;
    let sent = sent_by_spans(alloc, rules, spans)?;
    let Parted { within, outside } = parted_by_time(alloc, run.plan.get().duration, sent)?;
    let commands = List::from_vec(by_time(within)?);
    let close = close_positions(alloc, rules.spacings.as_slice(), commands.as_slice())?;
    Ok(Sequence {
        commands,
        outside: List::from_vec(by_time(outside)?),
        close,
    })
}
