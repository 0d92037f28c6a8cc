//! What is known of sequence points, each as the contract of a function that does nothing.
ghost use Rattle.enc_seqpoints.specs.Example.{BlobIsRead, BlobIsWritten};
ghost use Rattle.enc_seqpoints.specs.Laws.{PointsReadBack, ReadIsWritable, FirstIsNamed};

use enc_base::written_laws;

/// What `write_points` writes is read by `read_points` as the same points. What `read_points` reads
/// can be written. Where a point is named as not writable, those before it can be written, and no
/// blob is read as those and it.
pub fn point_laws()
    ensures back { PointsReadBack }
    ensures read { ReadIsWritable }
    ensures named { FirstIsNamed }
{
    written_laws();
}

/// A blob of three points in two documents, read by hand, is read so and written so.
pub fn example_law()
    ensures reads { BlobIsRead }
    ensures written { BlobIsWritten }
{}
