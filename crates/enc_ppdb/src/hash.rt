//! The hash of a document's source.
ghost use Rattle.std.specs.Prelude.{◌≡◌};
ghost use Rattle.sha2.specs.Sha256.{sha256};

use sha2::{Digest, Sha256};

/// The GUID of the hash algorithm SHA-256, 8829d00f-11b8-4213-878b-770e8597ac16, in the order in
/// which `#GUID` stores its bytes (Portable PDB v1.0, Document Table).
pub const SHA_256: [u8; 16] = [
    0x0f, 0xd0, 0x29, 0x88, 0xb8, 0x11, 0x13, 0x42, 0x87, 0x8b, 0x77, 0x0e, 0x85, 0x97, 0xac, 0x16,
];

/// The SHA-256 hash of a document's source, as stands in the Hash column of a document whose hash
/// algorithm is `SHA_256` (Portable PDB v1.0, Document Table).
pub fn source_hash(source: &[u8]) -> [u8; 32]
    ensures { result ≡ sha256 source.now }
{
    Sha256::digest(source)
}
