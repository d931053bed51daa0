//! A stepper over two books of stored steps.

ghost use Rattle.std.specs.Prelude.{◌≡◌, ◌<◌, ◌≤◌, ◌+◌, ◌*◌, [], IfOk, IsTrue, length};
ghost use Rattle.std.specs.List.{All};
ghost use Rattle.aerie_base.specs.Ranges.{step_limit};
ghost use Rattle.body_code.specs.ModelCodes.{AreCodesOf};
ghost use Rattle.run_data.specs.Jobs.{IsJobOf};
ghost use Rattle.run_data.specs.Waves.{wave_of, IsFrugal, RoseAlike};
ghost use Rattle.batch_run.specs.Spreads.{IsSameSpread, IsSpreadOf, stored_in};

use crate::answers::{is_none_found, look_up, missed_jobs, weave};
use crate::pieces::{open_pieces, piece_size, run_pieces};
use crate::probes::{NoProbe, Probe};
use aerie_base::{List, Model, OutOfMemory, Steps};
use body_code::Code;
use record_book::Book;
use run_data::laws::{depends_on_reads, records_are_found_by_equality, steps_are_valid_records};
use run_data::{Job, Stepper, Wave};
use std::alloc::Global;
use std::sync::ledger::Ledger;
use std::thread::Threads;
use task_step::{Room, run_jobs};

/// Looks the jobs of a wave up in two books, and runs those of which neither has the step, in so many pieces at most. Contracts see
/// the books, the codes, how many statements and tests it ran, up to 2^64 - 1, and where its codes lie.
#[derive(Drop)]
pub struct Spread<'a, R: Threads + Sync, P: Probe> {
    rt: &'a R,
    book: &'a Book,
    kept: &'a Book,
    codes: &'a [Code],
    pieces: usize,
    probe: &'a P,
    opened: u64,
    /// What the steps of one wave leave for the next.
    room: Room,
}

impl<'a, R: Threads + Sync, P: Probe> std::marker::Model for Spread<'a, R, P> {
    ghost use Rattle.std.specs.Coded.{codes as coders};
    ghost use Rattle.aerie_base.specs.contracts.expressions.Expr as expr;
    ghost use Rattle.aerie_base.specs.contracts.conditions.Cond as cond;
    ghost use Rattle.aerie_base.specs.contracts.statements.Stmt as stmt;
    ghost use Rattle.batch_run.specs.Spreads.{SpreadStepper};

    ghost Value = { SpreadStepper };

    ghost coded = { Prim.hlevel (coders, expr.the_row.coded, cond.the_row.coded, stmt.the_row.coded) };

    ghost view = { λ spread. record {
      book = spread.book.now;
      kept = spread.kept.now;
      codes = spread.codes.now;
      opened = spread.opened;
      codes_at = spread.codes.ref_ptr.0;
    } };
}

impl<'a, R: Threads + Sync, P: Probe> Spread<'a, R, P> {
    /// A stepper over two books of one model and the codes of its bodies: of the activity types and then of the daemons, in the
    /// model's order. It takes no memory.
    pub fn new(
        rt: &'a R,
        book: &'a Book,
        kept: &'a Book,
        codes: &'a [Code],
        pieces: usize,
        probe: &'a P,
    ) -> Spread<'a, R, P>
        requires pieces { (1 ≤ pieces) × (pieces ≤ 64) }
        requires model { kept.now.model ≡ book.now.model }
        requires codes { AreCodesOf book.now.model codes.now }
        ensures of { IsSpreadOf result book.now.model }
        ensures book { result.book ≡ book.now }
        ensures kept { result.kept ≡ kept.now }
        ensures codes { result.codes ≡ codes.now }
        ensures opened { result.opened ≡ 0 }
        ensures address { result.codes_at ≡ codes.entry.ref_ptr.0 }
    {
        let _book = book.model();
        let _kept = kept.model();
        Spread {
            rt,
            book,
            kept,
            codes,
            pieces,
            probe,
            opened: 0,
            room: Room::new(),
        }
    }

    /// How many statements and tests it ran, or 2^64 - 1 where there were more. It takes no memory.
    pub fn opened(&self) -> u64
        ensures { result ≡ self.now.opened }
    {
        self.opened
    }

    /// The wave of jobs that are run one after another on this thread.
    fn run_here<L: Ledger>(
        &mut self,
        alloc: Global,
        model: &Model,
        jobs: &[Job],
        fuel: u64,
        steps: &mut Steps<L>,
    ) -> Result<Wave, OutOfMemory>
        requires codes { AreCodesOf model.now self.old.codes }
        requires jobs { All (IsJobOf model.now) jobs.now }
        requires fuel { fuel ≤ step_limit }
        ensures wave { IfOk result (λ wave. wave ≡ wave_of model.now fuel jobs.now) }
        ensures frugal { IfOk result (λ wave. IsFrugal wave [] steps.old steps.new) }
        ensures opened { RoseAlike self.old.opened steps.old self.new.opened steps.new }
        ensures same { IsSameSpread self.old self.new }
    {
        let _opened = self.opened;
        self.probe.piece(0);
        let fresh = run_jobs(alloc, model, self.codes, jobs, fuel, &mut self.room)?;
        Ok(fresh.open(steps, &mut self.opened))
    }

    /// The wave of jobs that are run in pieces of this size, each on a thread of its own where one can be made.
    fn run_apart<L: Ledger>(
        &mut self,
        alloc: Global,
        model: &Model,
        jobs: &[Job],
        fuel: u64,
        size: usize,
        steps: &mut Steps<L>,
    ) -> Result<Wave, OutOfMemory>
        requires size { 0 < size }
        requires codes { AreCodesOf model.now self.old.codes }
        requires jobs { All (IsJobOf model.now) jobs.now }
        requires fuel { fuel ≤ step_limit }
        ensures wave { IfOk result (λ wave. wave ≡ wave_of model.now fuel jobs.now) }
        ensures frugal { IfOk result (λ wave. IsFrugal wave [] steps.old steps.new) }
        ensures opened { RoseAlike self.old.opened steps.old self.new.opened steps.new }
        ensures same { IsSameSpread self.old self.new }
    {
        let _opened = self.opened;
        let pieces = run_pieces(
            self.rt, alloc, model, self.codes, jobs, fuel, size, self.probe,
        )?;
        open_pieces(alloc, pieces, fuel, steps, &mut self.opened)
    }

    /// The wave of jobs that are run, in pieces where there are enough of them.
    fn run<L: Ledger>(
        &mut self,
        alloc: Global,
        model: &Model,
        jobs: &[Job],
        fuel: u64,
        steps: &mut Steps<L>,
    ) -> Result<Wave, OutOfMemory>
        requires codes { AreCodesOf model.now self.old.codes }
        requires jobs { All (IsJobOf model.now) jobs.now }
        requires fuel { fuel ≤ step_limit }
        ensures wave { IfOk result (λ wave. wave ≡ wave_of model.now fuel jobs.now) }
        ensures frugal { IfOk result (λ wave. IsFrugal wave [] steps.old steps.new) }
        ensures opened { RoseAlike self.old.opened steps.old self.new.opened steps.new }
        ensures same { IsSameSpread self.old self.new }
    {
        let _opened = self.opened;
        if jobs.is_empty() {
            return Ok(Wave::Frames(List::new(alloc)));
        }
        match piece_size(jobs.len(), self.pieces) {
            Some(size) => self.run_apart(alloc, model, jobs, fuel, size, steps),
            None => self.run_here(alloc, model, jobs, fuel, steps),
        }
    }

    /// The frames of the jobs, in their order and without their children, or `Spent` exactly where the sum of their costs passes the
    /// fuel, which is at most 100,000,000: whatever the books have, and into however many pieces the rest is cut. `looks` rises before
    /// the rest is run, by at most two a job, and `steps` after all pieces have ended, both on this thread.
    pub fn run_wave<L: Ledger, K: Ledger>(
        &mut self,
        alloc: Global,
        model: &Model,
        jobs: &[Job],
        fuel: u64,
        steps: &mut Steps<L>,
        looks: &mut Steps<K>,
    ) -> Result<Wave, OutOfMemory>
        requires of { IsSpreadOf self.old model.now }
        requires jobs { All (IsJobOf model.now) jobs.now }
        requires fuel { fuel ≤ step_limit }
        ensures wave { IfOk result (λ wave. wave ≡ wave_of model.now fuel jobs.now) }
        ensures frugal { IfOk result (λ wave. IsFrugal wave (stored_in self.old) steps.old steps.new) }
        ensures looks { looks.old ≤ looks.new }
        ensures few_looks { looks.new ≤ looks.old + 2 * length jobs.now }
        ensures opened { RoseAlike self.old.opened steps.old self.new.opened steps.new }
        ensures same { IsSameSpread self.old self.new }
    {
        let _opened = self.opened;
        if self.has_no_step() {
            return self.run(alloc, model, jobs, fuel, steps);
        }
        self.look_up_and_run(alloc, model, jobs, fuel, steps, looks)
    }

    /// Whether neither book has a step, as in the first simulation of a model: then there is nothing to look up.
    #[tactic(auto, using(crate::proofs::Stored::none_stored))]
    fn has_no_step(&self) -> bool
        ensures { IsTrue result → stored_in self.now ≡ [] }
    {
        self.book.len() == 0 && self.kept.len() == 0
    }

    /// The wave of jobs, of which those are run whose steps neither book has.
    fn look_up_and_run<L: Ledger, K: Ledger>(
        &mut self,
        alloc: Global,
        model: &Model,
        jobs: &[Job],
        fuel: u64,
        steps: &mut Steps<L>,
        looks: &mut Steps<K>,
    ) -> Result<Wave, OutOfMemory>
        requires of { IsSpreadOf self.old model.now }
        requires jobs { All (IsJobOf model.now) jobs.now }
        requires fuel { fuel ≤ step_limit }
        ensures wave { IfOk result (λ wave. wave ≡ wave_of model.now fuel jobs.now) }
        ensures frugal { IfOk result (λ wave. IsFrugal wave (stored_in self.old) steps.old steps.new) }
        ensures looks { looks.old ≤ looks.new }
        ensures few_looks { looks.new ≤ looks.old + 2 * length jobs.now }
        ensures opened { RoseAlike self.old.opened steps.old self.new.opened steps.new }
        ensures same { IsSameSpread self.old self.new }
    {
        let _opened = self.opened;
        steps_are_valid_records();
        records_are_found_by_equality();
        depends_on_reads();
        let answers = look_up(alloc, self.book, self.kept, jobs, looks)?;
        if is_none_found(answers.as_slice()) {
            return self.run(alloc, model, jobs, fuel, steps);
        }
        let rest = missed_jobs(alloc, jobs, answers.as_slice())?;
        match self.run(alloc, model, rest.as_slice(), fuel, steps)? {
            Wave::Frames(fresh) => weave(alloc, answers, fresh, fuel),
            Wave::Spent => Ok(Wave::Spent),
        }
    }
}

/// One impl for each probe: what a trait's method sends to threads may not rest on a bound of its impl.
impl<R: Threads + Sync> Stepper for Spread<'_, R, NoProbe> {
    ghost use Rattle.std.specs.Prelude.{min};
    ghost use Rattle.std.specs.Thread.{IsSync};
    ghost use Rattle.std.proofs.Common.{arith};
    ghost use Rattle.run_data.specs.Waves.{last_count};
    ghost use Rattle.batch_run.specs.Spreads.{IsSpreadOf, stored_in};

    ghost is_of = { IsSpreadOf };

    ghost records = { stored_in };

    ghost opened = { λ spread. min spread.opened last_count };

    ghost address = { λ spread. spread.codes_at };

    ghost shares = { IsSync R.row };

    ghost valid = { λ spread model of. of.valid };

    ghost counted = { λ spread. Prim.omega arith };

    fn wave<L: Ledger, K: Ledger>(
        &mut self,
        alloc: Global,
        model: &Model,
        jobs: &[Job],
        fuel: u64,
        steps: &mut Steps<L>,
        looks: &mut Steps<K>,
    ) -> Result<Wave, OutOfMemory> {
        self.run_wave(alloc, model, jobs, fuel, steps, looks)
    }
}
