// The calls of the queue of jobs.
ghost use Rattle.std.specs.Prelude.{◌≡◌, IfOk};
ghost use Rattle.encode_pool.specs.QueueRule.{view_of, with_split, with_joined};
ghost use Rattle.encode_pool.specs.Passes.{seen, IsPassIn, IsFirst, PushGives, PopGives, AllOutIfNone, WasPushed};
ghost use Rattle.encode_pool.specs.declared.queue_view.Standing.TheVariants.{First, Further};

use crate::job_pass::JobPass;
use crate::job_queue::{CAPACITY, JobQueue};
use crate::queue_rule::{JobRule, Passing, Popped, Pushed};
use crate::queue_view::QueueView;
use capture_jobs::Job;
use crossbeam_queue::RuledArrayQueue;
use std::alloc::Global;
use std::sync::Wait;
use xp_base::NoMemory;

impl JobQueue {
    /// An empty queue and its first pass.
    pub fn new(alloc: Global) -> Result<(JobQueue, JobPass), NoMemory>
        ensures pass { IfOk result (λ made. IsPassIn made.0 made.1) }
        ensures view { IfOk result (λ made. seen made.1 ≡ view_of First) }
    {
        let (queue, pass) = RuledArrayQueue::<Job, QueueView, JobRule>::ruled(alloc, CAPACITY)?;
        Ok((JobQueue { queue }, JobPass { pass }))
    }

    /// A further pass, which pops.
    pub fn split(&self, first: &mut JobPass) -> JobPass
        requires queue { IsPassIn self.now first.old }
        requires first { IsFirst first.old }
        ensures queue { IsPassIn self.now first.new × IsPassIn self.now result }
        ensures first { seen first.new ≡ with_split (seen first.old) }
        ensures further { seen result ≡ view_of Further }
    {
        let pass = self.queue.another::<Passing>(&mut first.pass);
        JobPass { pass }
    }

    /// Takes a further pass in. What it popped stands in what was pushed, in its order.
    pub fn join(&self, first: &mut JobPass, other: JobPass)
        requires queue { IsPassIn self.now first.old × IsPassIn self.now other }
        requires first { IsFirst first.old }
        ensures queue { IsPassIn self.now first.new }
        ensures first { seen first.new ≡ with_joined (seen first.old) (seen other) }
        ensures pushed { WasPushed (seen other) (seen first.old) }
    {
        self.queue.absorb::<Passing>(&mut first.pass, other.pass);
        self.queue.learn_as::<Popped>(&mut first.pass);
    }

    /// Puts a job at the end. `Err` hands it back; the queue was then full at some moment.
    pub fn push<R: Wait>(&self, rt: &R, first: &mut JobPass, job: Job) -> Result<(), Job>
        requires queue { IsPassIn self.now first.old }
        requires first { IsFirst first.old }
        ensures queue { IsPassIn self.now first.new }
        ensures answer { PushGives 256 (seen first.old) job (seen first.new) result }
    {
        self.queue.push_as::<Pushed, R>(rt, &mut first.pass, job)
    }

    /// Takes the job at the front. `None` means that the queue was empty at some moment.
    pub fn pop<R: Wait>(&self, rt: &R, pass: &mut JobPass) -> Option<Job>
        requires { IsPassIn self.now pass.old }
        ensures queue { IsPassIn self.now pass.new }
        ensures answer { PopGives (seen pass.old) (seen pass.new) result }
        ensures all { AllOutIfNone (seen pass.old) result }
    {
        self.queue.pop_as::<Popped, R>(rt, &mut pass.pass)
    }
}
