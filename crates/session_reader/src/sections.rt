//! The sections of rules, by model.

ghost use Rattle.std.specs.Prelude.{◌≡◌, None, IfOk, is_some, slice_set, Some};
ghost use Rattle.session_reader.specs.Diagnostics.{noted};
ghost use Rattle.session_reader.specs.Sections.{no_sections as no_sections_by, section_of, model_of_section as model_of_section_by, position_of_section as position_of_section_by, section_diagnostics, diagnostics_of_section, section_put, with_section, MakesSections};

use crate::causes::Cause;
use crate::known_parts::model_position;
use aerie_base::{List, Model, OutOfMemory, Place, Shared};
use diagnostics::{Diagnostic, note, note_unless};
use model_reader::RawName;
use session_grammar::RawSection;
use std::alloc::Global;

/// The number of the first token of some rules, and that of the token behind them.
pub(crate) type TokenRange = (usize, usize);

/// For each model its section, where it has one.
pub(crate) type SectionsByModel = List<Option<TokenRange>>;

/// A place for each model, without a section.
fn no_sections(alloc: Global, models: &[Shared<Model>]) -> Result<SectionsByModel, OutOfMemory>
    ensures { IfOk result (λ sections. sections ≡ no_sections_by models.now) }
{
    let mut sections = List::with_capacity(alloc, models.len())?;
    for _ in 0..models.len() {
        sections.push(None)?;
    }
    Ok(sections)
}

/// Whether the model has a section.
fn has_section(sections: &SectionsByModel, model: usize) -> bool
    ensures { result ≡ is_some (section_of sections.now model) }
{
    match sections.as_slice().get(model) {
        Some(section) => section.is_some(),
        None => false,
    }
}

/// The position of the model of a section.
fn model_of_section(models: &[Shared<Model>], of: &Option<RawName>) -> Option<usize>
    ensures { result ≡ model_of_section_by models.now of.now }
{
    match of {
        None => Some(0),
        Some(name) => model_position(models, &name.name),
    }
}

/// The place at which a section is refused.
fn position_of_section(at: Place, of: &Option<RawName>) -> Place
    ensures { result ≡ position_of_section_by at of.now }
{
    match of {
        None => at,
        Some(name) => name.at,
    }
}

/// Notes a section of an unknown model, or of one that has a section.
fn note_section(
    sections: &SectionsByModel,
    at: Place,
    model: Option<usize>,
    found: &mut Option<Diagnostic<Cause>>,
)
    ensures { found.new ≡ noted found.old (section_diagnostics sections.now at model) }
{
    match model {
        None => note(found, at, Cause::Unknown),
        Some(model) => note_unless(!has_section(sections, model), found, at, Cause::Duplicate),
    }
}

/// Puts a section into a place, where there is such a place.
fn set_section(sections: &mut SectionsByModel, model: usize, range: TokenRange)
    ensures { sections.new ≡ slice_set sections.old model (Some range) }
{
    if model < sections.items.len() {
        sections.items[model] = Some(range);
    }
}

/// Gives the model the section, where it is known and has none.
fn put_section(sections: &mut SectionsByModel, range: TokenRange, model: Option<usize>)
    ensures { sections.new ≡ section_put sections.old range model }
{
    if let Some(model) = model
        && !has_section(sections, model)
    {
        set_section(sections, model, range);
    }
}

/// Judges a section, and puts it with the others.
fn add_section(
    models: &[Shared<Model>],
    sections: &mut SectionsByModel,
    raw: &RawSection,
    found: &mut Option<Diagnostic<Cause>>,
)
    ensures put { sections.new ≡ with_section models.now sections.old raw.now }
    ensures noted { found.new ≡ noted found.old (diagnostics_of_section models.now sections.old raw.now) }
{
    let model = model_of_section(models, &raw.of);
    note_section(sections, position_of_section(raw.at, &raw.of), model, found);
    put_section(sections, (raw.from, raw.to), model);
}

/// Judges the sections of a sort, and gives them by model. It takes time linear in them.
pub(crate) fn sections_of(
    alloc: Global,
    models: &[Shared<Model>],
    raw: &[RawSection],
    found: &mut Option<Diagnostic<Cause>>,
) -> Result<SectionsByModel, OutOfMemory>
    ensures { IfOk result (MakesSections models.now raw.now found.old found.new) }
{
    let mut sections = no_sections(alloc, models)?;
    for section in raw {
        add_section(models, &mut sections, section, found);
    }
    Ok(sections)
}
