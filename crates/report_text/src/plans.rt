//! How plans are written, as `load` reads them.

ghost use Rattle.std.specs.Prelude.{◌≡◌, ◌++◌, OnOk};
ghost use Rattle.json_line.specs.Parts.{data_tokens};
ghost use Rattle.plan_edit.specs.ShownPlan.{edge_word, json_of_anchor, json_of_directive, json_of_plan};
ghost use Rattle.report_text.specs.ShownPlans.{directive_data};

use crate::alone::Alone;
use crate::arguments::{Arguments, write_none};
use crate::wordings::Wording;
use aerie_base::{Activity, Anchor, Directive, Edge, OutOfMemory, Plan};
use json_line::{JsonIn, JsonLine};

/// The word of an edge.
fn edge_word(edge: Edge) -> &'static str
    ensures { result.now ≡ edge_word edge }
{
    match edge {
        Edge::Start => "start",
        Edge::End => "end",
    }
}

impl JsonIn<Alone> for Anchor {
    ghost data_in = { λ _ anchor. json_of_anchor anchor };

    #[tactic(auto, using(json_line::proofs::Steps::part_by_part))]
    fn write_in(&self, _alone: &Alone, line: &mut JsonLine) -> Result<(), OutOfMemory> {
        line.begin_object()?;
        line.text_member("edge", edge_word(self.edge))?;
        line.member("to", &self.to)?;
        line.end_object()
    }
}

/// A directive of an activity type.
fn write_of_type<'a>(
    line: &mut JsonLine,
    wording: &Wording<'a>,
    activity: &Activity,
    directive: &Directive,
) -> Result<(), OutOfMemory>
    ensures { OnOk result (line.new ≡ line.old ++ data_tokens (directive_data wording.now activity.now directive.now)) }
{
    let arguments = Arguments {
        kind: directive.kind,
        values: &directive.arguments,
    };
    line.begin_object()?;
    line.member_if_in("anchor", &Alone, &directive.anchor)?;
    line.member_in("arguments", wording, &arguments)?;
    line.member("id", &directive.id)?;
    line.member("start", &directive.start)?;
    line.member("type", &activity.name)?;
    line.end_object()
}

impl<'a> JsonIn<Wording<'a>> for Directive {
    ghost data_in = { json_of_directive };

    fn write_in(&self, wording: &Wording<'a>, line: &mut JsonLine) -> Result<(), OutOfMemory> {
        match wording.model().activities().get(usize::from(self.kind)) {
            Some(activity) => write_of_type(line, wording, activity, self),
            None => write_none(line),
        }
    }
}

impl<'a> JsonIn<Wording<'a>> for Plan {
    ghost data_in = { json_of_plan };

    #[tactic(auto, using(json_line::proofs::Steps::part_by_part))]
    fn write_in(&self, wording: &Wording<'a>, line: &mut JsonLine) -> Result<(), OutOfMemory> {
        line.begin_object()?;
        line.member_in("directives", wording, &self.directives)?;
        line.end_object()
    }
}
