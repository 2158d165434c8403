ghost use Rattle.std.specs.Prelude.{◌≡◌};
ghost use Rattle.site_types.specs.Digest.{digest_of};

use sha2::{Digest, Sha256};

/// The digest of a site file, which a journal carries so that it opens for its own site alone.
pub fn site_digest(bytes: &[u8]) -> [u8; 32]
    ensures { result ≡ digest_of bytes.now }
{
    Sha256::digest(bytes)
}
