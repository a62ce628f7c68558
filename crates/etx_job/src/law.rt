//! What holds of every job.
ghost use Rattle.std.specs.Prelude.{◌≡◌, ℕ, ◌≤◌, List};
ghost use Rattle.etx_outside.specs.Entries.{Files, said};
ghost use Rattle.etx_matter.specs.Jobs.{JobState};
ghost use Rattle.etx_job.specs.Chain.{Start, chain};
ghost use Rattle.etx_job.specs.Words.{log_name};
ghost use Rattle.etx_job.specs.Texts.{added_to, is_at_start, OnlyTo, OnlyMakes, OnlyAsks, AllTold};
ghost use Rattle.etx_job.specs.Meaning.{Meaning, IsMeaning, IsMeaningOfJob, start_of};
ghost use Rattle.etx_matter.specs.declared.end.Status.TheVariants.{Spent};

/// Whatever the words are and whatever the files hold, the words have exactly one meaning over them: each chain of
/// steps comes to an end, and to one alone.
pub fn each_job_has_one_meaning()
    ensures one { (words : List (List ℕ)) (files : Files) → (m : Meaning) × IsMeaning words files m }
    ensures only { (words : List (List ℕ)) (files : Files) (m n : Meaning) → IsMeaning words files m → IsMeaning words files n → m ≡ n }
{}

/// More budget changes nothing: a meaning whose status isn't `Spent` is the meaning under each greater budget too.
pub fn more_budget_changes_nothing()
    ensures { (job : JobState) (budget : ℕ) (files : Files) (m : Meaning) → job.budget ≤ budget → (m.status ≡ Spent → ⊥) → IsMeaningOfJob (start_of job files) m → IsMeaningOfJob (start_of (record job { budget = budget }) files) m }
{}

/// The column of the transcript is right: after any number of turns, the job takes a line to be at its start exactly where
/// nothing was written to the log yet, or the last byte that was written to it is 10.
pub fn the_column_is_that_of_the_log()
    ensures { (start : Start) (turns : ℕ) → (chain start turns).pen.at_start ≡ is_at_start (added_to (log_name start.job.name) (chain start turns).trace) }
{}

/// While no deed goes to the log alone, as one will in batch mode, the bytes that a job writes to its log are those that it says.
pub fn the_log_is_what_was_said()
    ensures { (start : Start) (turns : ℕ) → AllTold start turns → added_to (log_name start.job.name) (chain start turns).trace ≡ said (chain start turns).trace }
{}

/// A job creates no file but its log and adds bytes to no other, and asks for no file but the one that it was given.
pub fn a_job_keeps_to_its_files()
    ensures made { (start : Start) (turns : ℕ) → OnlyMakes (log_name start.job.name) (chain start turns).trace }
    ensures written { (start : Start) (turns : ℕ) → OnlyTo (log_name start.job.name) (chain start turns).trace }
    ensures asked { (start : Start) (turns : ℕ) → OnlyAsks start.job.name (chain start turns).trace }
{}
