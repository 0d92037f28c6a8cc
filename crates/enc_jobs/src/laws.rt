//! What every list that is read has, each as the contract of a function that does nothing.
ghost use Rattle.enc_jobs.specs.Laws.{SaidFits, PointsLie, StandsAsRead, TargetsBegin, ScriptIsShort, ScriptNamesDeltas};

use enc_opcodes::name_laws;

/// A list that a text says is of the form.
pub fn form_law()
    ensures { SaidFits }
{
    name_laws();
}

/// Each sequence point of a list that a text says stands in the code of its body.
pub fn points_law()
    ensures { PointsLie }
{}

/// The instructions of a body that is read stand where their targets were looked for, so each target is the offset at
/// which an instruction begins.
pub fn target_laws()
    ensures stand { StandsAsRead }
    ensures begin { TargetsBegin }
{}

/// A script that a text says has at most 100,000 commands, and the name of each delta in it has 1 to 200 bytes,
/// each an ASCII letter, a digit or one of `_ - . /`.
pub fn script_laws()
    ensures short { ScriptIsShort }
    ensures names { ScriptNamesDeltas }
{}
