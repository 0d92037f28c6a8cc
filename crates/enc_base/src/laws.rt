//! What the definitions of this crate mean, each as the contract of a function that does nothing.
ghost use Rattle.std.specs.Prelude.{◌≡◌, ℕ};
ghost use Rattle.enc_base.specs.Numbers.{CompressedIsRead, ReadIsCompressed, WrittenIsRead, WrittenIsShortest, SignedWrittenIsRead, SignedWrittenIsShortest};
ghost use Rattle.enc_base.specs.Order.{MeansFirst};

/// A compressed number is read exactly where the grammar has one, whatever follows it, and no
/// spelling of another length stands at the same front.
pub fn compressed_laws()
    ensures spelled { CompressedIsRead }
    ensures read { ReadIsCompressed }
{}

/// What `push_unsigned` and `push_signed` write reads back as the number, whatever follows it, and
/// no spelling of the number is shorter.
pub fn written_laws()
    ensures back { WrittenIsRead }
    ensures shortest { WrittenIsShortest }
    ensures signed_back { SignedWrittenIsRead }
    ensures signed_shortest { SignedWrittenIsShortest }
{}

/// `first_below rule n` is what the rule answers at the first place below n at which it answers.
pub fn first_below_law<A>()
    ensures { MeansFirst A }
{}
