ghost use Rattle.std.specs.Prelude.{◌≡◌, ◌↔◌, IsTrue, IfOk};
ghost use Rattle.aerie_base.specs.models.ValidModel.{valid_model};

use super::{Activity, CellStart, Daemon, EnumType, Resource};
use crate::containers::List;
use crate::memory::OutOfMemory;
use crate::names::Name;
use crate::plain_data::{copy_list, same_list};
use std::alloc::Global;

/// The parts of a model.
#[derive(Debug, Drop)]
struct Parts {
    pub name: Name,
    pub enums: List<EnumType>,
    pub cells: List<(Name, CellStart)>,
    pub resources: List<(Name, Resource)>,
    pub activities: List<Activity>,
    pub daemons: List<Daemon>,
}

/// A model: the cells of a mission, what is shown of them, and what its activities and daemons do. Its names, types,
/// ranges, linear forms and sizes are as they have to be (`valid_model`). Contracts see its parts.
#[derive(Debug, Drop)]
pub struct Model {
    parts: Parts,
}

impl std::marker::Model for Model {
    ghost use Rattle.std.specs.Coded.{codes};
    ghost use Rattle.aerie_base.specs.contracts.expressions.Expr as expr;
    ghost use Rattle.aerie_base.specs.contracts.conditions.Cond as cond;
    ghost use Rattle.aerie_base.specs.contracts.statements.Stmt as stmt;
    ghost use Rattle.aerie_base.specs.declared.models.model.Parts.{Parts};

    ghost Value = { Parts };

    ghost coded = { Prim.hlevel (codes, expr.the_row.coded, cond.the_row.coded, stmt.the_row.coded) };

    ghost view = { λ model. model.parts };

    ghost use Rattle.std.specs.Prelude.{IsTrue};
    ghost use Rattle.aerie_base.specs.models.ValidModel.{valid_model};

    ghost invariant = { λ model. IsTrue (valid_model model.parts) };
}

impl Model {
    /// The model of these parts. It takes no memory.
    pub fn new(
        name: Name,
        enums: Vec<EnumType>,
        cells: Vec<(Name, CellStart)>,
        resources: Vec<(Name, Resource)>,
        activities: Vec<Activity>,
        daemons: Vec<Daemon>,
    ) -> Model
        requires { IsTrue (valid_model (record { name = name; enums = enums.items; cells = cells.items; resources = resources.items; activities = activities.items; daemons = daemons.items })) }
        ensures { result ≡ record { name = name; enums = enums.items; cells = cells.items; resources = resources.items; activities = activities.items; daemons = daemons.items } }
    {
        Model {
            parts: Parts {
                name,
                enums: List::from_vec(enums),
                cells: List::from_vec(cells),
                resources: List::from_vec(resources),
                activities: List::from_vec(activities),
                daemons: List::from_vec(daemons),
            },
        }
    }

    /// Its name.
    pub fn name(&self) -> &Name
        ensures value { result.now ≡ self.now.name }
        ensures valid { IsTrue (valid_model self.now) }
    {
        &self.parts.name
    }

    /// Its enumerations, in the order of their declarations.
    pub fn enums(&self) -> &[EnumType]
        ensures value { result.now ≡ self.now.enums }
        ensures valid { IsTrue (valid_model self.now) }
    {
        self.parts.enums.as_slice()
    }

    /// Its cells with their names, in the order of their declarations.
    pub fn cells(&self) -> &[(Name, CellStart)]
        ensures value { result.now ≡ self.now.cells }
        ensures valid { IsTrue (valid_model self.now) }
    {
        self.parts.cells.as_slice()
    }

    /// Its resources with their names, in the order of their declarations.
    pub fn resources(&self) -> &[(Name, Resource)]
        ensures value { result.now ≡ self.now.resources }
        ensures valid { IsTrue (valid_model self.now) }
    {
        self.parts.resources.as_slice()
    }

    /// Its activity types, in the order of their declarations.
    pub fn activities(&self) -> &[Activity]
        ensures value { result.now ≡ self.now.activities }
        ensures valid { IsTrue (valid_model self.now) }
    {
        self.parts.activities.as_slice()
    }

    /// Its daemons, in the order of their declarations.
    pub fn daemons(&self) -> &[Daemon]
        ensures value { result.now ≡ self.now.daemons }
        ensures valid { IsTrue (valid_model self.now) }
    {
        self.parts.daemons.as_slice()
    }

    /// An equal model.
    pub fn copy(&self, alloc: Global) -> Result<Model, OutOfMemory>
        ensures { IfOk result (λ copy. copy ≡ self.now) }
    {
        let parts = self.parts.copy(alloc)?;
        Ok(Model { parts })
    }

    /// Whether the two are the same model, at a cost linear in its size.
    pub fn is_same(&self, other: &Model) -> bool
        ensures { IsTrue result ↔ (self.now ≡ other.now) }
    {
        self.parts.is_same(&other.parts)
    }
}

impl Parts {
    fn copy(&self, alloc: Global) -> Result<Parts, OutOfMemory>
        ensures { IfOk result (λ copy. copy ≡ self.now) }
    {
        let name = self.name.copy(alloc)?;
        let enums = copy_list(alloc, &self.enums)?;
        let cells = copy_list(alloc, &self.cells)?;
        let resources = copy_list(alloc, &self.resources)?;
        let activities = copy_list(alloc, &self.activities)?;
        let daemons = copy_list(alloc, &self.daemons)?;
        Ok(Parts {
            name,
            enums,
            cells,
            resources,
            activities,
            daemons,
        })
    }

    fn is_same(&self, other: &Parts) -> bool
        ensures { IsTrue result ↔ (self.now ≡ other.now) }
    {
        self.name.is_same(&other.name)
            && same_list(self.enums.as_slice(), other.enums.as_slice())
            && same_list(self.cells.as_slice(), other.cells.as_slice())
            && same_list(self.resources.as_slice(), other.resources.as_slice())
            && same_list(self.activities.as_slice(), other.activities.as_slice())
            && same_list(self.daemons.as_slice(), other.daemons.as_slice())
    }
}
