ghost use Rattle.aol_program.specs.Accept.{AcceptedHaveNoCause};
ghost use Rattle.aol_program.specs.OneRefusal.{OneRefusal, AcceptedIsNotRefused};
ghost use Rattle.aol_program.specs.OneReply.{OneReply};

/// A law: for the same bytes a command has one reply, so each status comes exactly where its cause holds.
pub fn there_is_one_reply()
    ensures { OneReply }
{}

/// A law: a sound model has at most one refusal.
pub fn there_is_one_refusal()
    ensures { OneRefusal }
{}

/// A law: an accepted model has none.
pub fn accepted_is_not_refused()
    ensures { AcceptedIsNotRefused }
{}

/// A law: bytes that are accepted have no cause to be refused, so `accept` is `Ok` exactly where they are accepted.
pub fn accepted_have_no_cause()
    ensures { AcceptedHaveNoCause }
{}
