// SHA-256 for C.
#![tactic(auto)]

ghost use Rattle.std.specs.Prelude.{◌≡◌};
ghost use Rattle.model.specs.Sha256.{sha256};
ghost use Rattle.sha256.specs.Limbs.{limbs_bytes};

use sha256::Sha256Digest;

// The digest of a message.
#[unsafe(no_mangle)]
pub extern "C" fn sha256_digest(message: &[u8], out: &mut Sha256Digest)
    ensures { limbs_bytes out.new.limbs ≡ sha256 message.now }
{
    sha256::sha256_digest(message, out);
}
