//! What holds of every run of the mouth.
ghost use Rattle.std.specs.Prelude.{◌≡◌, ℕ};
ghost use Rattle.etx_mouth.specs.Mouths.{MouthState};
ghost use Rattle.etx_mouth.specs.Runs.{Advances};
ghost use Rattle.etx_mouth.specs.declared.yields.Halt.{Halt as Why};

/// From one mouth and under one budget, the first turn that isn't quiet or passes the budget is determined, with what it yields
/// and the mouth behind it, however many quiet turns were made in one call before.
pub fn each_run_halts_in_one_way()
    ensures why { (budget : ℕ) (old new other : MouthState) (why wherefore : Why) → Advances budget old new why → Advances budget old other wherefore → why ≡ wherefore }
    ensures now { (budget : ℕ) (old new other : MouthState) (why wherefore : Why) → Advances budget old new why → Advances budget old other wherefore → new ≡ other }
{}
