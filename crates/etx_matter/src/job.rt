//! What is to be typeset.
ghost use Rattle.std.specs.Prelude.{◌≡◌, ◌≤◌};

use etx_lists::Bytes;
use std::marker::Model;

/// The most steps that a job may be given: 2^40.
pub const GREATEST_BUDGET: u64 = 1_099_511_627_776;

/// A job: the name of its main file, with the extension, and the most steps that it may take.
#[derive(Drop)]
pub struct Job {
    name: Bytes,
    budget: u64,
}

impl Model for Job {
    ghost use Rattle.std.specs.Prelude.{◌≤◌};
    ghost use Rattle.etx_matter.specs.Jobs.{JobState};

    ghost Value = { JobState };

    ghost view = { λ j. record { name = j.name; budget = j.budget } };

    ghost invariant = { λ j. j.budget ≤ 1099511627776 };
}

impl Job {
    /// A job of at most [`GREATEST_BUDGET`] steps.
    pub fn new(name: Bytes, budget: u64) -> Job
        requires { budget ≤ 1099511627776 }
        ensures { result ≡ record { name = name; budget = budget } }
    {
        Job { name, budget }
    }

    /// The name of the main file.
    pub fn name(&self) -> &[u8]
        ensures { result.now ≡ self.now.name }
    {
        self.name.as_slice()
    }

    /// The most steps that the job may take.
    pub fn budget(&self) -> u64
        ensures value { result ≡ self.now.budget }
        ensures bounded { result ≤ 1099511627776 }
    {
        self.budget
    }

    /// Gives the name of the main file away. Takes no memory.
    pub fn into_name(self) -> Bytes
        ensures { result ≡ self.name }
    {
        let Job { name, .. } = self;
        name
    }
}
