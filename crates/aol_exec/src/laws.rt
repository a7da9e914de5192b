ghost use Rattle.aol_exec.specs.Decided.{ExecIsDecided};

/// Each tree has one answer.
pub fn exec_is_decided()
    ensures { ExecIsDecided }
{}
