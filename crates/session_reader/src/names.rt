//! Names that may stand but once.

ghost use Rattle.std.specs.Prelude.{◌≡◌, [], map, IfOk};
ghost use Rattle.session_reader.specs.Diagnostics.{noted};
ghost use Rattle.session_reader.specs.RepeatedNames.{repeated_diagnostics};

use crate::causes::Cause;
use aerie_base::{Name, OutOfMemory};
use diagnostics::{Diagnostic, NameSet, note_repeated};
use model_reader::{RawModel, RawName};
use session_grammar::{RawBeginning, RawDataset, RawFeed, RawTypeRule};
use std::alloc::Global;

/// What has a name in the text.
pub(crate) trait Named {
    ghost use Rattle.model_reader.specs.declared.raw.names.RawName.{RawName};

    ghost named: { Self → RawName };

    /// The name.
    fn raw_name(&self) -> &RawName
        ensures { result.now ≡ named self.now };
}

impl Named for RawModel {
    ghost named = { λ model. model.name };

    fn raw_name(&self) -> &RawName {
        &self.name
    }
}

impl Named for RawTypeRule {
    ghost named = { λ rule. rule.old };

    fn raw_name(&self) -> &RawName {
        &self.old
    }
}

impl Named for RawFeed {
    ghost named = { λ feed. feed.parameter };

    fn raw_name(&self) -> &RawName {
        &self.parameter
    }
}

impl Named for RawBeginning {
    ghost named = { λ beginning. beginning.cell };

    fn raw_name(&self) -> &RawName {
        &self.cell
    }
}

impl Named for RawDataset {
    ghost named = { λ dataset. dataset.name };

    fn raw_name(&self) -> &RawName {
        &self.name
    }
}

/// Notes names that are those of earlier ones. A name is looked up by its hash.
pub(crate) fn note_all_repeated<T: Named>(
    alloc: Global,
    parts: &[T],
    found: &mut Option<Diagnostic<Cause>>,
) -> Result<(), OutOfMemory>
    ensures { IfOk result (λ _. found.new ≡ noted found.old (repeated_diagnostics [] (map T.named parts.now))) }
{
    let mut earlier = NameSet::new(alloc);
    for part in parts {
        let name = part.raw_name();
        note_repeated(
            alloc,
            &mut earlier,
            &name.name,
            name.at,
            Cause::Duplicate,
            found,
        )?;
    }
    Ok(())
}
