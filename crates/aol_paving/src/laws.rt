ghost use Rattle.aol_paving.specs.Leaves.{PavedLeaves};
ghost use Rattle.aol_paving.specs.Pave.{PavedKeepsTasks};

/// A law: the paved model of a sound one has its elementary tasks and its main ports.
pub fn paved_keeps_tasks()
    ensures { PavedKeepsTasks }
{}

/// A law: the leaves of the paved model are the old ones in their order, each below the task with its block inside.
pub fn paved_leaves()
    ensures { PavedLeaves }
{}
