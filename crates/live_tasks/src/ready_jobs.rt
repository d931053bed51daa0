ghost use Rattle.std.specs.Prelude.{◌≡◌, ◌<◌, ◌++◌, [], ◌∷◌, Some, map, length, slice_get, IfOk, OnOk};
ghost use Rattle.live_tasks.specs.ReadyJobs.{root_of};

use aerie_base::{OutOfMemory, Path, Shared};
use run_data::Job;
use std::alloc::Global;
use std::marker::Model;
use std::mem;

/// A ready task: its path, and how many children it has made.
#[derive(Drop)]
pub struct Root {
    /// Its path.
    pub path: Shared<Path>,
    /// How many children it has made.
    pub made: u32,
}

/// The jobs of ready tasks, in order of path, each with the number of children that its task has made. Contracts see the
/// list of these pairs.
#[derive(Drop)]
pub struct ReadyJobs {
    jobs: Vec<Job>,
    roots: Vec<Root>,
}

impl Model for ReadyJobs {
    ghost use Rattle.std.specs.Prelude.{◌≡◌, ℕ, List, map};
    ghost use Rattle.run_data.specs.declared.jobs.Job.{Job as Asked};
    ghost use Rattle.std.specs.List.{zip};

    ghost Value = { List (ℕ × Asked) };

    ghost view = { λ ready. zip (map (λ root. root.made) ready.roots.items) ready.jobs.items };

    ghost invariant = { λ ready. map (λ root. root.path) ready.roots.items ≡ map (λ job. job.path) ready.jobs.items };
}

impl ReadyJobs {
    /// None.
    pub fn new(alloc: Global) -> ReadyJobs
        ensures { result ≡ [] }
    {
        ReadyJobs {
            jobs: Vec::new(alloc),
            roots: Vec::new(alloc),
        }
    }

    /// None any more. The room for them is kept.
    pub fn clear(&mut self)
        ensures { self.new ≡ [] }
    {
        self.jobs.clear();
        self.roots.clear();
    }

    /// Puts one more behind the last.
    pub fn push(&mut self, made: u32, job: Job) -> Result<(), OutOfMemory>
        ensures { OnOk result (self.new ≡ self.old ++ (made, job) ∷ []) }
    {
        let path = job.path.share()?;
        let root = Root { path, made };
        self.jobs.reserve(1)?;
        self.roots.push(root)?;
        self.jobs.push_reserved(job);
        Ok(())
    }

    /// One more behind the last.
    pub fn with(self, made: u32, job: Job) -> Result<ReadyJobs, OutOfMemory>
        ensures { IfOk result (λ ready. ready ≡ self ++ (made, job) ∷ []) }
    {
        let mut all = self;
        all.push(made, job)?;
        Ok(all)
    }

    /// The jobs.
    pub fn jobs(&self) -> &[Job]
        ensures { result.now ≡ map (λ job. job.1) self.now }
    {
        self.jobs.as_slice()
    }

    /// How many there are.
    pub fn len(&self) -> usize
        ensures { result ≡ length self.now }
    {
        self.jobs.len()
    }

    /// How many children the task of a job has made.
    pub fn made(&self, at: usize) -> u32
        requires { at < length self.now }
        ensures { slice_get (map (λ job. job.0) self.now) at ≡ Some result }
    {
        self.roots[at].made
    }

    /// Takes out the tasks. Their jobs are let go, and with them what they see.
    pub fn take_roots(&mut self, alloc: Global) -> Vec<Root>
        ensures roots { result.items ≡ map root_of self.old }
        ensures none { self.new ≡ [] }
    {
        self.jobs.clear();
        mem::replace(&mut self.roots, Vec::new(alloc))
    }

    /// Puts back the room of tasks that were taken out.
    pub fn put_back(&mut self, roots: Vec<Root>)
        ensures { self.new ≡ [] }
    {
        let mut roots = roots;
        roots.clear();
        self.jobs.clear();
        self.roots = roots;
    }
}
