ghost use Rattle.aol_transform.specs.Steps.{KeptStepsAgree};

/// A law: a model that kept steps have made of a sound and accepted one is accepted, and has its main outputs.
pub fn kept_steps_agree()
    ensures { KeptStepsAgree }
{}
