// What the entries that add and evict name.
ghost use Rattle.std.specs.Prelude.{◌≡◌, ◌&&◌, is_some, IfSome, nat_lt};
ghost use Rattle.model.specs.Monitor.{good_node_path, good_path, good_record, good_timestamp};
ghost use Rattle.path.specs.Times.{timestamp_of};
ghost use Rattle.range.specs.Packing.{bits_of, PacksRecord};
ghost use Rattle.reader.specs.Meaning.{record_of};

use crate::Packed;
use crate::fields::{is_good_timestamp, node_path};
use crate::records::{nothing, of_record};
use path::Timestamp;
use record::path_from_bits;
use wire::Record;

pub fn add_merkle(record: Record<'_>, above: &[u8]) -> Option<Packed>
    ensures some { is_some result ≡ (good_record (record_of «record».entry) && good_node_path above.now) }
    ensures packed { IfSome result (λ p. (bits_of p.above ≡ above.now) × PacksRecord «record».entry p) }
{
    let packed = of_record(record)?;
    let above = node_path(above)?;
    Some(Packed { above, ..packed })
}

pub fn add_blum(
    record: Record<'_>,
    timestamp: Timestamp,
    verifier: u64,
    verifiers: u64,
) -> Option<Packed>
    ensures some { is_some result ≡ ((good_record (record_of «record».entry) && good_timestamp (timestamp_of timestamp)) && nat_lt verifier verifiers) }
    ensures packed { IfSome result (PacksRecord «record».entry) }
{
    if verifier >= verifiers {
        return None;
    }
    if !is_good_timestamp(timestamp) {
        return None;
    }
    of_record(record)
}

pub fn evict_merkle(path: &[u8], above: &[u8]) -> Option<Packed>
    ensures some { is_some result ≡ (good_path path.now && good_node_path above.now) }
    ensures packed { IfSome result (λ p. (bits_of p.path ≡ path.now) × (bits_of p.above ≡ above.now)) }
{
    let path = path_from_bits(path)?;
    let above = node_path(above)?;
    Some(Packed {
        path,
        above,
        ..nothing()
    })
}

pub fn evict_blum(path: &[u8], timestamp: Timestamp) -> Option<Packed>
    ensures some { is_some result ≡ (good_path path.now && good_timestamp (timestamp_of timestamp)) }
    ensures packed { IfSome result (λ p. bits_of p.path ≡ path.now) }
{
    if !is_good_timestamp(timestamp) {
        return None;
    }
    let path = path_from_bits(path)?;
    Some(Packed { path, ..nothing() })
}

pub fn evict_blum_merkle(path: &[u8], above: &[u8], timestamp: Timestamp) -> Option<Packed>
    ensures some { is_some result ≡ ((good_path path.now && good_node_path above.now) && good_timestamp (timestamp_of timestamp)) }
    ensures packed { IfSome result (λ p. (bits_of p.path ≡ path.now) × (bits_of p.above ≡ above.now)) }
{
    if !is_good_timestamp(timestamp) {
        return None;
    }
    evict_merkle(path, above)
}
