//! What the definitions of the machine mean, each as the contract of a function that does nothing.
ghost use Rattle.enc_vm.specs.Laws.{StepsMean, SpawnsMean, TasksMean, StatesMean};
ghost use Rattle.enc_vm.specs.Laws.{PlainStepsStayPlaced, PlainSpawnsArePlaced, StepsStayPlaced, SpawnsArePlaced};
ghost use Rattle.enc_vm.specs.Laws.{PlainPlacesAreKept, PlacesAreMeant};
ghost use Rattle.enc_vm.specs.Texts.{MoreTextsMeanTheSame};

/// A step of a task whose frames hold versions means the plain machine's step of what the task means, by a module and
/// a PDB that the newest versions stand for; and so does a spawn (ECMA-335 I.12.3.2). Tasks by their numbers, and the
/// machine after a task's step, are those of what the machine means.
pub fn meaning_laws()
    ensures steps { StepsMean }
    ensures spawns { SpawnsMean }
    ensures tasks { TasksMean }
    ensures states { StatesMean }
{}

/// Offsets stay places of instructions: a step leaves each frame of a task at one, or at the end of its code, and
/// so does a spawn (ECMA-335 III.1.7.2).
pub fn place_laws()
    ensures plain_steps { PlainStepsStayPlaced }
    ensures plain_spawns { PlainSpawnsArePlaced }
    ensures steps { StepsStayPlaced }
    ensures spawns { SpawnsArePlaced }
{}

/// They are places by another module and another PDB too, and so are those of what frames mean.
pub fn kept_place_laws()
    ensures kept { PlainPlacesAreKept }
    ensures meant { PlacesAreMeant }
{}

/// Where more user texts come and those before stay, frames mean the same: each goes on in its own body, with its own
/// texts (ECMA-335 II.24.2.4).
pub fn text_law()
    ensures { MoreTextsMeanTheSame }
{}
