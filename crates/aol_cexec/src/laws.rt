ghost use Rattle.aol_cexec.specs.Exec.{RunIsDecided};

/// In one order a run comes to its end or is stuck at one step.
pub fn run_is_decided()
    ensures { RunIsDecided }
{}
