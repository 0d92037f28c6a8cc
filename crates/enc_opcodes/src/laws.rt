//! What the table of instructions means as a whole and what a target is, each as the contract of a function that does
//! nothing.
ghost use Rattle.enc_opcodes.specs.Example.{ExampleIsRead};
ghost use Rattle.enc_opcodes.specs.Laws.{CodesTell, NamesTell, NamedAreFound, TargetsAreSums};

/// An instruction is the one with its code.
pub fn code_laws()
    ensures { CodesTell }
{}

/// Each instruction is found by its name, and what is found by a name is an instruction of that name.
/// So no two instructions have the same name.
pub fn name_laws()
    ensures found { NamesTell }
    ensures named { NamedAreFound }
{}

/// A branch goes to the sum of its distance and the offset behind it, and there is none where that sum
/// isn't a number of four bytes (ECMA-335 III.3).
pub fn target_law()
    ensures { TargetsAreSums }
{}

/// The example body means what is written down of it: the definitions compute it.
pub fn example_body()
    ensures { ExampleIsRead }
{}
