//! How spans are written.

ghost use Rattle.std.specs.Prelude.{◌≡◌, ◌++◌, OnOk};
ghost use Rattle.epoch_text.specs.DayTexts.{day_text_of};
ghost use Rattle.json_line.specs.Parts.{data_tokens};
ghost use Rattle.span_table.specs.AsDefined.{defined_span};
ghost use Rattle.span_table.specs.SpanLaws.{AreSpansOf};
ghost use Rattle.report_text.specs.SpanLines.{span_data, spans_data};

use crate::arguments::Arguments;
use crate::wordings::Wording;
use aerie_base::{OutOfMemory, Time};
use epoch_text::{Start, push_day_text};
use json_line::{JsonIn, JsonLine, JsonText};
use run_data::Run;
use span_table::Span;

/// A plan's start in the calendar, with the wording of its model.
#[derive(Drop)]
pub struct Calendar<'a> {
    /// How its model is worded.
    pub wording: Wording<'a>,
    /// The instant of the plan's time 0.
    pub start: Start,
}

/// A time of a plan with this start, as it is told in the calendar.
#[derive(Drop)]
pub(crate) struct Utc<'b> {
    pub(crate) start: &'b Start,
    pub(crate) time: Time,
}

impl<'b> JsonText for Utc<'b> {
    ghost as_text = { λ utc. day_text_of utc.start.now utc.time };

    fn push_to(&self, text: &mut String) -> Result<(), OutOfMemory> {
        push_day_text(text, self.start, self.time)
    }
}

impl<'a> JsonIn<Calendar<'a>> for Span {
    ghost data_in = { λ calendar span. span_data calendar.wording calendar.start (defined_span span) };

    fn write_in(&self, calendar: &Calendar<'a>, line: &mut JsonLine) -> Result<(), OutOfMemory> {
        let wording = &calendar.wording;
        let utc = Utc {
            start: &calendar.start,
            time: self.start,
        };
        let arguments = Arguments {
            kind: self.kind,
            values: &self.arguments,
        };
        line.begin_object()?;
        line.member_in("arguments", wording, &arguments)?;
        line.member("end", &self.end)?;
        line.member("path", &self.path)?;
        line.member_in("result", wording, &self.result)?;
        line.member("start", &self.start)?;
        line.text_member("type", wording.type_name(self.kind))?;
        line.text_member_of("utc", &utc)?;
        line.end_object()
    }
}

/// The spans of a run, in their order.
pub fn write_spans<'a>(
    line: &mut JsonLine,
    calendar: &Calendar<'a>,
    run: &Run,
    spans: &[Span],
) -> Result<(), OutOfMemory>
    requires spans { AreSpansOf calendar.now.wording run.now spans.now }
    ensures { OnOk result (line.new ≡ line.old ++ data_tokens (spans_data calendar.now.wording calendar.now.start run.now)) }
{
    let _ = run.instants.as_slice();
    line.list_in(calendar, spans)
}
