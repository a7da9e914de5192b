ghost use Rattle.aol_fusion.specs.Told.{OldNumbersAreTold};

/// A law: by the numbers of its old leaves, each instance of the fused model of a sound one has its old one.
pub fn old_numbers_are_told()
    ensures { OldNumbersAreTold }
{}
