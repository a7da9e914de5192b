ghost use Rattle.aol_csyn.specs.Laws.{OneProgram, PartsFollow};
ghost use Rattle.aol_csyn.specs.Puts.{StepsChangeWhatTheyPut};

/// Two well formed programs with one text are equal.
pub fn programs_have_one_text()
    ensures { OneProgram }
{}

/// What statements do is what their first part does, and then the rest.
pub fn statements_follow_one_another()
    ensures { PartsFollow }
{}

/// A step that is not stuck changes only what it puts.
pub fn steps_change_what_they_put()
    ensures { StepsChangeWhatTheyPut }
{}
