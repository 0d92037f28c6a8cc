//! What the definitions of this crate mean, each as the contract of a function that does nothing.
ghost use Rattle.enc_pe.specs.Laws.{ImagesAreRead, BareHasNone, RangeIsFront};
ghost use Rattle.enc_pe.specs.Written.{ImageIsRead};

/// The metadata and the resources of an image are the bytes at the RVAs that its CLI header tells.
pub fn image_law()
    ensures { ImagesAreRead }
{}

/// A bare file has no bytes at any RVA.
pub fn bare_law()
    ensures { BareHasNone }
{}

/// A range of RVAs that isn't longer than the bytes from its RVA on is the front of these.
pub fn range_law()
    ensures { RangeIsFront }
{}

/// An image that was written is read back: its metadata, its resources, its entry point, and its code
/// at the RVA where it was put.
pub fn written_image_law()
    ensures { ImageIsRead }
{}
