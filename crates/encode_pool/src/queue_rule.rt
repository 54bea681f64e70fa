// The rule of the queue of jobs, and its kinds of step.
use crate::queue_view::QueueView;
use capture_jobs::Job;
use crossbeam_queue::protocol::{Join, Lesson, Outcome, Protocol, Split};

/// Each job that was pushed was popped or is left, as often as it was pushed.
pub struct JobRule;

impl Protocol<Job, QueueView> for JobRule {
    ghost use Rattle.encode_pool.specs.QueueRule.{Conserves, view_of};
    ghost use Rattle.encode_pool.specs.declared.queue_view.Standing.TheVariants.{First};

    ghost holds = { Conserves };

    ghost first = { view_of First };
}

/// A pass pushed a job.
pub struct Pushed;

impl Outcome<Job, QueueView> for Pushed {
    ghost use Rattle.std.specs.Prelude.{◌≡◌};
    ghost use Rattle.encode_pool.specs.QueueRule.{with_pushed};

    ghost then = { λ v job w. w ≡ with_pushed v job };
}

impl Lesson<Job, QueueView> for Pushed {
    ghost use Rattle.encode_pool.specs.QueueRule.{IsMoment};

    ghost fact = { IsMoment };
}

/// A pass popped a job.
pub struct Popped;

impl Outcome<Job, QueueView> for Popped {
    ghost use Rattle.std.specs.Prelude.{◌≡◌};
    ghost use Rattle.encode_pool.specs.QueueRule.{with_popped};

    ghost then = { λ v job w. w ≡ with_popped v job };
}

impl Lesson<Job, QueueView> for Popped {
    ghost use Rattle.encode_pool.specs.QueueRule.{IsMoment};

    ghost fact = { IsMoment };
}

/// The first pass split a further one off, or took one in.
pub struct Passing;

impl Split<QueueView> for Passing {
    ghost use Rattle.encode_pool.specs.QueueRule.{with_split, view_of};
    ghost use Rattle.encode_pool.specs.declared.queue_view.Standing.TheVariants.{Further};

    ghost left = { with_split };

    ghost right = { λ v. view_of Further };
}

impl Join<QueueView> for Passing {
    ghost use Rattle.encode_pool.specs.QueueRule.{with_joined, view_of};
    ghost use Rattle.encode_pool.specs.declared.queue_view.Standing.TheVariants.{Spent};

    ghost both = { with_joined };

    ghost spent = { view_of Spent };
}
