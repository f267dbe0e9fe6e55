// The paths of keys.
ghost use Rattle.std.specs.Prelude.{◌≡◌};
ghost use Rattle.model.specs.Records.{bits, bits_of_bytes, key_path, le_bytes};
ghost use Rattle.path.specs.Packs.{path_in};

use path::Path;

// A key's path: the bits of its digest, each byte's high bit first.
pub fn key_path(key: &[u8]) -> Path
    ensures path { path_in result.len result.bits ≡ key_path key.now }
    ensures len { result.len ≡ 256 }
{
    Path {
        len: 256,
        bits: sha256::digest(key).map(big_endian),
    }
}

// A limb has its first byte lowest, and a path's word has it highest.
fn big_endian(limb: u64) -> u64
    ensures { bits 64 result ≡ bits_of_bytes (le_bytes 8 limb) }
{
    limb.swap_bytes()
}
