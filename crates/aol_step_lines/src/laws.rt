ghost use Rattle.aol_step_lines.specs.Laws.{OneModelMade, KeptHaveNoReply, OneStepsReply};

/// A law: steps that are all kept make one model.
pub fn steps_make_one_model()
    ensures { OneModelMade }
{}

/// A law: they have no reply.
pub fn kept_steps_have_no_reply()
    ensures { KeptHaveNoReply }
{}

/// A law: other steps have at most one reply.
pub fn steps_have_one_reply()
    ensures { OneStepsReply }
{}
