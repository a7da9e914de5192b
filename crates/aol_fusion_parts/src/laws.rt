ghost use Rattle.aol_fusion_parts.specs.Fuse.{FusedKeepsTasks};

/// A law: the fused model of a sound one has its elementary tasks and its main ports.
pub fn fused_keeps_tasks()
    ensures { FusedKeepsTasks }
{}
