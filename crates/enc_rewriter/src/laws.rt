//! What the definitions of this crate mean, as the contract of a function that does nothing.
ghost use Rattle.enc_rewriter.specs.Rewritten.{ImagesMean};

/// An image that is written of a sound module's parts is read as that module: it isn't refused, and
/// its rows, owners, children, bodies, initial bytes, resources and entry are the module's.
pub fn image_means_law()
    ensures { ImagesMean }
{}
