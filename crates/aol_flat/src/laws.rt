ghost use Rattle.aol_flat.specs.Sources.{SoundSourcesAreFound, SourcesAreRight};
ghost use Rattle.aol_flat.specs.Targets.{TwiceIsFound};
ghost use Rattle.aol_flat.specs.Wired.{AgreeingIsWired};
ghost use Rattle.aol_flat.specs.Accept.{AcceptedSolutionsAgree, ElementsAreListed, ReadValuesAgree, SoundIsReal, AcceptedHasNoCycle, ReadingsAreReads, SolutionExists};
ghost use Rattle.aol_flat.specs.ElementaryMain.{ElementaryMainIsSolved, MainPortsDiffer};
ghost use Rattle.aol_flat.specs.Followed.{FollowedHomes, SettledIsSolution, FollowingMoves, LevelsAreAcyclic, AgreeingIsNumbered, AgreeingLevelsAreAcyclic};
ghost use Rattle.aol_flat.specs.InstanceNeed.{CyclesAreNeeds, InstanceCyclesAreReal};
ghost use Rattle.aol_flat.specs.Keep.{KeptOutputsAgree, KeptSoundAgree, KeptModelsAgree};
ghost use Rattle.aol_flat.specs.Unique.{SolutionsAgree, AcyclicIsGrounded};
ghost use Rattle.aol_model_types.specs.declared.document.Model.{Model};

/// A law: two solutions of a model agree at each element that is determined.
pub fn solutions_agree()
    ensures { SolutionsAgree }
{}

/// A law: where no element of a closed list needs itself, every list of needs from one comes to an end.
pub fn acyclic_is_grounded()
    ensures { AcyclicIsGrounded }
{}

/// A law: where the main task is elementary and the inputs fit, there is a solution, and every solution has the computed main outputs.
pub fn elementary_main_is_solved()
    ensures { ElementaryMainIsSolved }
{}

/// A law: where the shapes of a model agree, the ports of an elementary main task have different names.
pub fn main_ports_differ()
    ensures { MainPortsDiffer }
{}

/// A law: both sides of an equation that is followed have one home.
pub fn followed_homes()
    ensures { FollowedHomes }
{}

/// A law: settled stored values make a solution.
pub fn settled_is_solution()
    ensures { SettledIsSolution }
{}

/// A law: following climbs through inputs, crosses to an output once, and descends.
pub fn following_moves()
    ensures { FollowingMoves }
{}

/// A law: where instances have levels, no element needs itself.
pub fn levels_are_acyclic()
    ensures { LevelsAreAcyclic }
{}

/// A law: a set in which every instance needs one of the set has an instance that needs itself, and levels rule such a set out.
pub fn cycles_are_needs()
    ensures { (m : Model) → CyclesAreNeeds m }
{}

/// A law: an instance that needs itself has an element that does.
pub fn instance_cycles_are_real()
    ensures { InstanceCyclesAreReal }
{}

/// A law: a model that keeps another has the old main outputs.
pub fn kept_outputs_agree()
    ensures { KeptOutputsAgree }
{}

/// A law: the solutions of an accepted model agree at every element that is read.
pub fn accepted_solutions_agree()
    ensures { AcceptedSolutionsAgree }
{}

/// A law: where the shapes of a model agree, it is wired.
pub fn agreeing_is_wired()
    ensures { AgreeingIsWired }
{}

/// A law: the first point that is written twice is found exactly where one is.
pub fn twice_is_found()
    ensures { TwiceIsFound }
{}

/// A law: where the shapes of a model agree, each elementary output and each copy belongs to a listed instance.
pub fn agreeing_is_numbered()
    ensures { AgreeingIsNumbered }
{}

/// A law: where the shapes of a model agree and its instances have levels, no element needs itself.
pub fn agreeing_levels_are_acyclic()
    ensures { AgreeingLevelsAreAcyclic }
{}

/// A law: the elements of a sound model are finitely many, and need no others.
pub fn elements_are_listed()
    ensures { ElementsAreListed }
{}

/// A law: the solutions of a sound and accepted model agree at every element that is read.
pub fn read_values_agree()
    ensures { ReadValuesAgree }
{}

/// A law: a model that keeps a sound and accepted one has its main outputs.
pub fn kept_sound_agree()
    ensures { KeptSoundAgree }
{}

/// A law: each listed instance of a sound model runs an elementary task or copies one element.
pub fn sound_is_real()
    ensures { SoundIsReal }
{}

/// A law: in an accepted model no set of instances has a cycle.
pub fn accepted_has_no_cycle()
    ensures { AcceptedHasNoCycle }
{}

/// A law: in a sound model where nothing is written twice, each element has one equation, which the look-up finds.
pub fn sound_sources_are_found()
    ensures { SoundSourcesAreFound }
{}

/// A law: a sound model within the limits that keeps a sound and accepted one is accepted and has its main outputs.
pub fn kept_models_agree()
    ensures { KeptModelsAgree }
{}

/// A law: the reads of a sound model are the listed ones.
pub fn readings_are_reads()
    ensures { ReadingsAreReads }
{}

/// A law: what the look-up of sources finds at an element of a sound model is what an equation says.
pub fn sources_are_right()
    ensures { SourcesAreRight }
{}

/// A law: a sound and accepted model has a solution for all inputs that fit.
pub fn solution_exists()
    ensures { SolutionExists }
{}
