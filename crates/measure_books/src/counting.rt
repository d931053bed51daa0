//! The steps that are stored: those of a daemon that reads a counter, `model counting { counter n = 0; daemon { let x = n; } }`.

ghost use Rattle.std.specs.Prelude.{◌≡◌, IfSome, Some};
ghost use Rattle.aerie_base.specs.Names.{name_of};
ghost use Rattle.run_data.specs.Jobs.{AreCellsOf};
ghost use Rattle.run_data.specs.Records.{IsValid};
ghost use Rattle.measure_books.specs.Counting.{counter_read, counting, counting_state, counting_step};

use aerie_base::{
    CellRead, CellStart, Daemon, Expr, List, Model, Name, Number, Operand, Shared, Stmt, Value,
};
use effect_cells::{CellState, Cells, Effect};
use run_data::{BodyId, Record, Status, TaskState};
use std::alloc::Global;

/// `let x = n;`
fn counter_read() -> Stmt
    ensures { result ≡ counter_read }
{
    Stmt::Let {
        slot: 0,
        value: Expr::Operand(Operand::Read(CellRead::Counter(0))),
    }
}

/// The name that a text is.
fn name_in(alloc: Global, text: &str) -> Option<Name>
    ensures { IfSome result (λ name. Some name ≡ name_of text.now) }
{
    match Name::new(alloc, text) {
        Ok(name) => name,
        Err(_) => None,
    }
}

/// The cells of the model with their names.
fn counting_cells(alloc: Global) -> Option<Vec<(Name, CellStart)>>
    ensures { IfSome result (λ cells. cells.items ≡ counting.cells) }
{
    let name = name_in(alloc, "n")?;
    let mut cells = Vec::new(alloc);
    cells
        .push((name, CellStart::Counter(Number::new(0)?)))
        .ok()?;
    Some(cells)
}

/// The daemons of the model.
fn counting_daemons(alloc: Global) -> Option<Vec<Daemon>>
    ensures { IfSome result (λ daemons. daemons.items ≡ counting.daemons) }
{
    let mut body = List::new(alloc);
    body.push(counter_read()).ok()?;
    let mut daemons = Vec::new(alloc);
    daemons.push(Daemon { slots: 1, body }).ok()?;
    Some(daemons)
}

/// The model.
#[tactic(auto, using(crate::proofs::CountingSteps::counting_is_valid))]
pub(crate) fn counting_model(alloc: Global) -> Option<Shared<Model>>
    ensures { IfSome result (λ model. model ≡ counting) }
{
    let cells = counting_cells(alloc)?;
    let daemons = counting_daemons(alloc)?;
    let name = name_in(alloc, "counting")?;
    let model = Model::new(
        name,
        Vec::new(alloc),
        cells,
        Vec::new(alloc),
        Vec::new(alloc),
        daemons,
    );
    Shared::new(alloc, model).ok()
}

/// The state of the daemon with this local.
fn counting_state(alloc: Global, local: u32) -> Option<Shared<TaskState>>
    ensures { IfSome result (λ state. state ≡ counting_state local) }
{
    let mut locals = List::new(alloc);
    locals
        .push(Value::Int(Number::new(i64::from(local))?))
        .ok()?;
    let state = TaskState {
        kind: BodyId::Daemon(0),
        at: 0,
        locals,
    };
    Shared::new(alloc, state).ok()
}

/// The step of the daemon from the state with this local, where the counter has this number.
fn made_step(alloc: Global, local: u32, number: u32) -> Option<Shared<Record>>
    ensures { IfSome result (λ step. step ≡ counting_step local number) }
{
    let mut reads = List::new(alloc);
    reads
        .push((0, CellState::Counter(i128::from(number))))
        .ok()?;
    let record = Record {
        before: counting_state(alloc, local)?,
        reads,
        items: List::new(alloc),
        status: Status::Done(None),
        cost: 1,
    };
    Shared::new(alloc, record).ok()
}

/// The same, which is valid.
pub(crate) fn counting_step(alloc: Global, local: u32, number: u32) -> Option<Shared<Record>>
    ensures { IfSome result (IsValid counting) }
{
    let step = made_step(alloc, local, number)?;
    Some(step)
}

/// The cells as they begin.
pub(crate) fn first_cells(alloc: Global, model: &Model) -> Option<Cells>
    requires { model.now ≡ counting }
    ensures { IfSome result (AreCellsOf counting) }
{
    Cells::initial(alloc, model).ok()
}

/// The counter rises by so much, below 2^64.
pub(crate) fn raise(view: &mut Cells, by: u32)
    requires { AreCellsOf counting view.old }
    ensures { AreCellsOf counting view.new }
{
    if let CellState::Counter(number) = view.state(0) {
        if u64::try_from(number).is_ok() {
            view.emit(0, &Effect::Add(i128::from(by)));
        }
    }
}
