//! The locals of a body.

ghost use Rattle.std.specs.Prelude.{◌≡◌, not, length, option_map, OnOk};
ghost use Rattle.aerie_base.specs.models.Names.{is_name_among};
ghost use Rattle.model_check.specs.BodyScopes.{empty_scope, next_slot, with_new_local, later_place, clash, enum_place, cell_place, local_diagnostics, let_diagnostics};
ghost use Rattle.diagnostics.specs.Diagnostics.{refused_unless};
ghost use Rattle.model_check.specs.Diagnostics.{noted};
ghost use Rattle.model_check.specs.declared.causes.Cause.TheVariants.{Duplicate};
ghost use Rattle.model_check.specs.NameTables.{entry_in, first_entries};

use crate::causes::Cause;
use crate::symbols::Symbols;
use crate::tables::NameTable;
use aerie_base::{Kind, Name, OutOfMemory, Place};
use diagnostics::{Diagnostic, NameSet, is_place_before, note};
use model_reader::RawName;
use std::alloc::Global;

/// The most locals of a body.
const LOCAL_LIMIT: u16 = 64;

/// A local.
#[derive(Clone, Copy)]
pub(crate) struct LocalSymbol {
    /// Its slot.
    pub slot: u16,
    /// Its type, where that is known.
    pub kind: Option<Kind>,
    /// Whether it is a parameter.
    pub is_parameter: bool,
}

/// The locals of a body as far as it was read.
#[derive(Drop)]
pub(crate) struct BodyScope {
    /// The names of all locals so far, of those that are no longer known too.
    pub names: NameSet,
    /// The locals that are known.
    pub known: NameTable<LocalSymbol>,
    /// How many locals there were so far.
    pub count: u16,
}

impl BodyScope {
    /// No locals.
    pub(crate) fn new(alloc: Global) -> BodyScope
        ensures { result ≡ empty_scope }
    {
        BodyScope {
            names: NameSet::new(alloc),
            known: NameTable::new(alloc),
            count: 0,
        }
    }

    /// Adds a local, which takes the next slot.
    pub(crate) fn declare(
        &mut self,
        alloc: Global,
        name: &Name,
        kind: Option<Kind>,
        is_parameter: bool,
    ) -> Result<(), OutOfMemory>
        ensures { OnOk result (self.new ≡ with_new_local self.old name.now kind is_parameter) }
    {
        let local = LocalSymbol {
            slot: self.count,
            kind,
            is_parameter,
        };
        self.names.add(alloc, name)?;
        self.known.add(alloc, name, local)?;
        self.count = next_slot(self.count);
        Ok(())
    }

    /// How many locals are known.
    pub(crate) fn known_len(&self) -> usize
        ensures { result ≡ length self.now.known.names }
    {
        self.known.names.len()
    }

    /// Ends a block in front of which so many locals were known.
    pub(crate) fn leave_block(&mut self, known: usize)
        ensures { self.new ≡ record { names = self.old.names; known = first_entries known self.old.known; count = self.old.count } }
    {
        self.known.truncate(known);
    }
}

/// The slot behind this one.
fn next_slot(slot: u16) -> u16
    ensures { result ≡ next_slot slot }
{
    if slot < 65535 { slot + 1 } else { slot }
}

/// The later one of two places in the text.
fn later_place(one: Place, other: Place) -> Place
    ensures { result ≡ later_place one other }
{
    if is_place_before(one, other) {
        other
    } else {
        one
    }
}

/// Notes a name that is also that of something else.
fn note_clash(found: &mut Option<Diagnostic<Cause>>, at: Place, other: Option<Place>)
    ensures { found.new ≡ noted found.old (clash at other) }
{
    if let Some(other) = other {
        note(found, later_place(at, other), Cause::Duplicate);
    }
}

/// Where the name of an enumeration stands, where there is one of this name.
fn enum_place(symbols: &Symbols, name: &Name) -> Option<Place>
    ensures { result ≡ option_map enum_place (entry_in name.now symbols.now.enums) }
{
    let (_, symbol) = symbols.enums.find(name)?;
    Some(symbol.at)
}

/// Where the name of a cell stands, where there is one of this name.
fn cell_place(symbols: &Symbols, name: &Name) -> Option<Place>
    ensures { result ≡ option_map cell_place (entry_in name.now symbols.now.cells) }
{
    let (_, symbol) = symbols.cells.find(name)?;
    Some(symbol.at)
}

/// Notes the name of a local that is that of another local of its body.
fn note_again(scope: &BodyScope, name: &RawName, found: &mut Option<Diagnostic<Cause>>)
    ensures { found.new ≡ noted found.old (refused_unless (not (is_name_among name.now.name scope.now.names)) Duplicate name.now.at) }
{
    if scope.names.has(&name.name) {
        note(found, name.at, Cause::Duplicate);
    }
}

/// Notes what is wrong with the name of a new local.
#[tactic(auto, using(diagnostics::specs::NotedInTurn::noted_appended))]
pub(crate) fn note_local(
    symbols: &Symbols,
    scope: &BodyScope,
    name: &RawName,
    found: &mut Option<Diagnostic<Cause>>,
)
    ensures { found.new ≡ noted found.old (local_diagnostics symbols.now scope.now name.now) }
{
    note_again(scope, name, found);
    note_clash(found, name.at, enum_place(symbols, &name.name));
    note_clash(found, name.at, cell_place(symbols, &name.name));
}

/// Notes a `let` that is one too many.
pub(crate) fn note_let(at: Place, scope: &BodyScope, found: &mut Option<Diagnostic<Cause>>)
    ensures { found.new ≡ noted found.old (let_diagnostics at scope.now) }
{
    if LOCAL_LIMIT <= scope.count {
        note(found, at, Cause::TooManyLocals);
    }
}
