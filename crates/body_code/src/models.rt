ghost use Rattle.std.specs.Prelude.{◌≡◌, ◌≤◌, ◌++◌, All, IfOk, OnOk};
ghost use Rattle.aerie_base.specs.models.Limits.{statement_limit};
ghost use Rattle.aerie_base.specs.statements.Places.{block_count};
ghost use Rattle.body_code.specs.ModelCodes.{activity_codes, daemon_codes, model_codes, AreCodesOf};

use crate::codes::Code;
use crate::compiling::compile;
use aerie_base::{Activity, Daemon, List, Model, OutOfMemory};
use std::alloc::Global;

/// Adds the codes of the activity types.
fn add_activities(
    alloc: Global,
    codes: &mut List<Code>,
    activities: &[Activity],
) -> Result<(), OutOfMemory>
    requires { All (λ activity. block_count activity.body ≤ statement_limit) activities.now }
    ensures { OnOk result (codes.new ≡ codes.old ++ activity_codes activities.now) }
{
    for activity in activities {
        let code = compile(alloc, activity.body.as_slice())?;
        codes.push(code)?;
    }
    Ok(())
}

/// Adds the codes of the daemons.
fn add_daemons(alloc: Global, codes: &mut List<Code>, daemons: &[Daemon]) -> Result<(), OutOfMemory>
    requires { All (λ daemon. block_count daemon.body ≤ statement_limit) daemons.now }
    ensures { OnOk result (codes.new ≡ codes.old ++ daemon_codes daemons.now) }
{
    for daemon in daemons {
        let code = compile(alloc, daemon.body.as_slice())?;
        codes.push(code)?;
    }
    Ok(())
}

/// The codes of a model's bodies: those of its activity types and then those of its daemons, in the model's order. It
/// takes time and memory linear in the bodies.
pub fn compile_all(alloc: Global, model: &Model) -> Result<List<Code>, OutOfMemory>
    ensures flat { IfOk result (λ codes. codes ≡ model_codes model.now) }
    ensures denotes { IfOk result (λ codes. AreCodesOf model.now codes) }
{
    let mut codes = List::new(alloc);
    add_activities(alloc, &mut codes, model.activities())?;
    add_daemons(alloc, &mut codes, model.daemons())?;
    Ok(codes)
}
