//! What the definitions of this crate mean, each as the contract of a function that does nothing.
ghost use Rattle.enc_meta.specs.BuiltLaws.{TextsAreRead, UsersAreRead, BlobsAreRead, GuidsAreRead, TextsCount, OffsetsStay, NumbersStay, OffsetsTell, UserOffsetsTell, BlobOffsetsTell, GuidNumbersTell};
ghost use Rattle.enc_meta.specs.Example.{ExampleReads, ExampleCounts};
ghost use Rattle.enc_meta.specs.Laws.{PaddedIsLeast, TextStands};

/// A name is padded to the least multiple of 4 that isn't less.
pub fn padded_law()
    ensures { PaddedIsLeast }
{}

/// A text stands in `#Strings` without a zero in it and with one behind it.
pub fn text_law()
    ensures { TextStands }
{}

/// A file of 200 bytes reads as it was written by hand.
pub fn example_root()
    ensures root { ExampleReads }
    ensures counted { ExampleCounts }
{}

/// Every value is read at its offset in the joined heaps, whatever heaps stand before, and every byte
/// of the texts counts.
pub fn built_laws()
    ensures texts { TextsAreRead }
    ensures users { UsersAreRead }
    ensures blobs { BlobsAreRead }
    ensures guids { GuidsAreRead }
    ensures count { TextsCount }
{}

/// Offsets and GUID numbers that were given stay when more values come.
pub fn offsets_stay_law()
    ensures offsets { OffsetsStay }
    ensures numbers { NumbersStay }
{}

/// Different values of a heap have different offsets.
pub fn offsets_law()
    ensures texts { OffsetsTell }
    ensures users { UserOffsetsTell }
    ensures blobs { BlobOffsetsTell }
    ensures guids { GuidNumbersTell }
{}
