//! What is known of signatures, each as the contract of a function that does nothing.
ghost use Rattle.enc_sigs.specs.Laws.{WrittenReadsBack, TestsNameTables, WiderTestsRead, DepthIsBounded};
ghost use Rattle.enc_sigs.specs.Moved.{MovedReadsBack, MovedBeginsAlike, MovedFieldFront};

use enc_base::written_laws;

/// No type that is read stands deeper in others than 100.
pub fn depth_law()
    ensures { DepthIsBounded }
{}

/// What `write_sig` writes of a signature that was read is read as the same tree, with any test of
/// tokens with which it was read, and the tests of this crate are such tests. With a wider test more
/// is read, and nothing otherwise.
pub fn signature_laws()
    ensures back { WrittenReadsBack }
    ensures tests { TestsNameTables }
    ensures wider { WiderTestsRead }
{
    written_laws();
}

/// What `write_moved` writes of a signature that was read is read as the tree with its tokens moved,
/// by any test that these pass. It begins with the same byte, and that of a field with the same
/// first byte of its type.
pub fn moved_laws()
    ensures back { MovedReadsBack }
    ensures begins { MovedBeginsAlike }
    ensures field { MovedFieldFront }
{
    written_laws();
}
