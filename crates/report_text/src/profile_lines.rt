//! How profiles are written.

ghost use Rattle.std.specs.Prelude.{◌≡◌, ◌++◌, OnOk, map};
ghost use Rattle.serde_json.specs.Data.{array};
ghost use Rattle.serde_json.specs.View.{items_of};
ghost use Rattle.findings.specs.Found.{all_profiles};
ghost use Rattle.json_line.specs.Parts.{data_tokens};
ghost use Rattle.profiles.specs.Profiles.{profile_of};
ghost use Rattle.report_text.specs.ProfileLines.{profile_data, profiles_data, resource_data, segment_data, segments_data, value_segment_data};

use crate::wordings::Wording;
use aerie_base::{Name, OutOfMemory, Resource, Time, Value};
use json_line::{JsonData, JsonIn, JsonLine};
use profiles::Profile;
use run_data::Run;
use windows::Segment;

impl<'a> JsonIn<Wording<'a>> for (Time, Value) {
    ghost data_in = { λ model segment. value_segment_data model.enums segment };

    #[tactic(auto, using(json_line::proofs::Steps::part_by_part))]
    fn write_in(&self, wording: &Wording<'a>, line: &mut JsonLine) -> Result<(), OutOfMemory> {
        line.begin_array()?;
        self.0.write(line)?;
        self.1.write_in(wording, line)?;
        line.end_array()
    }
}

impl<'a> JsonIn<Wording<'a>> for Segment {
    ghost data_in = { λ _ segment. segment_data segment };

    fn write_in(&self, _wording: &Wording<'a>, line: &mut JsonLine) -> Result<(), OutOfMemory> {
        line.begin_array()?;
        self.from.write(line)?;
        self.value.write(line)?;
        self.rate.write(line)?;
        line.end_array()
    }
}

impl<'a> JsonIn<Wording<'a>> for Profile {
    ghost data_in = { λ model profile. segments_data model.enums profile };

    fn write_in(&self, wording: &Wording<'a>, line: &mut JsonLine) -> Result<(), OutOfMemory> {
        match self {
            Profile::Discrete(segments) => line.list_in(wording, segments.as_slice()),
            Profile::Linear(segments) => line.list_in(wording, segments.as_slice()),
        }
    }
}

/// A profile with the name of its resource.
#[tactic(auto, using(json_line::proofs::Steps::part_by_part))]
fn write_profile<'a>(
    line: &mut JsonLine,
    wording: &Wording<'a>,
    name: &Name,
    profile: &Profile,
) -> Result<(), OutOfMemory>
    ensures { OnOk result (line.new ≡ line.old ++ data_tokens (profile_data wording.now name.now profile.now)) }
{
    line.begin_object()?;
    line.member("name", name)?;
    line.member_in("segments", wording, profile)?;
    line.end_object()
}

/// A resource of the model with its profile over a run.
fn write_resource<'a>(
    line: &mut JsonLine,
    wording: &Wording<'a>,
    run: &Run,
    named: &(Name, Resource),
    profile: &Profile,
) -> Result<(), OutOfMemory>
    requires found { profile.now ≡ profile_of wording.now run.now named.now.1 }
    ensures { OnOk result (line.new ≡ line.old ++ data_tokens (resource_data wording.now run.now named.now)) }
{
    let _ = run.instants.as_slice();
    write_profile(line, wording, &named.0, profile)
}

/// The profiles of all resources over a run, which the caller has found, in the order of the declarations.
pub fn write_profiles<'a>(
    line: &mut JsonLine,
    wording: &Wording<'a>,
    run: &Run,
    profiles: &[Profile],
) -> Result<(), OutOfMemory>
    requires { profiles.now ≡ all_profiles wording.now run.now }
    ensures { OnOk result (line.new ≡ line.old ++ data_tokens (profiles_data wording.now run.now)) }
{
    write_resources(line, wording, run, wording.model().resources(), profiles)
}

/// The profiles of these resources, which are those of the model.
fn write_resources<'a>(
    line: &mut JsonLine,
    wording: &Wording<'a>,
    run: &Run,
    resources: &[(Name, Resource)],
    profiles: &[Profile],
) -> Result<(), OutOfMemory>
    requires all { resources.now ≡ wording.now.resources }
    requires found { profiles.now ≡ map (λ named. profile_of wording.now run.now named.1) resources.now }
    ensures { OnOk result (line.new ≡ line.old ++ data_tokens (array (items_of (map (resource_data wording.now run.now) resources.now)))) }
{
    line.begin_array()?;
    for number in 0..resources.len() {
        write_resource(line, wording, run, &resources[number], &profiles[number])?;
    }
    line.end_array()
}
