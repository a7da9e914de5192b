ghost use Rattle.aol_fusion_rules.specs.Sound.{FusedIsSound};

/// A law: the fused model of a sound one is sound, where a u32 counts its lists.
pub fn fused_is_sound()
    ensures { FusedIsSound }
{}
