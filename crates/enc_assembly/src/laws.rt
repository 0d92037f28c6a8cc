//! What assembled code means, as the contract of a function that does nothing.
ghost use Rattle.enc_assembly.specs.Assembly.{AssembledIsRead};

/// Code that was assembled is read as its instructions, whose branches reach their targets, and ends with the last.
pub fn assembled_law()
    ensures { AssembledIsRead }
{
    enc_opcodes::code_laws();
}
