// What keys, values and records name.
ghost use Rattle.std.specs.Prelude.{◌≡◌, ◌&&◌, is_some, IfSome, OnSome};
ghost use Rattle.model.specs.Monitor.{good_key, good_node_path, good_pointer, good_record, good_value};
ghost use Rattle.range.specs.Packing.{bits_of, NamesNothing, PacksRecord, Short};
ghost use Rattle.reader.specs.Meaning.{pointer_of, record_of, value_of};
ghost use Rattle.slot.specs.Meant.{child_meant};

use crate::Packed;
use crate::fields::{child, is_good_call, node_path};
use path::Path;
use slot::child::Child;
use wire::{Contents, Pointer, Record};

pub fn nothing() -> Packed
    ensures { NamesNothing result }
{
    Packed {
        path: Path::root(),
        above: Path::root(),
        left: Child::Absent,
        right: Child::Absent,
    }
}

// Of a key and a value nothing is packed.
pub fn of_call(key: &[u8], value: Option<&[u8]>) -> Option<Packed>
    ensures some { is_some result ≡ (good_key key.now && good_value (value_of value.entry)) }
    ensures short { OnSome result (Short key.now value.entry) }
{
    is_good_call(key, value).then(nothing)
}

fn of_node(path: &[u8], left: Pointer<'_>, right: Pointer<'_>) -> Option<Packed>
    ensures some { is_some result ≡ (good_node_path path.now && (good_pointer (pointer_of left.entry) && good_pointer (pointer_of right.entry))) }
    ensures packed { IfSome result (λ p. (bits_of p.path ≡ path.now) × (child_meant p.left ≡ pointer_of left.entry) × (child_meant p.right ≡ pointer_of right.entry)) }
{
    let path = node_path(path)?;
    let left = child(left)?;
    let right = child(right)?;
    Some(Packed {
        path,
        left,
        right,
        ..nothing()
    })
}

#[tactic(auto, unfolding(model::specs::Monitor::good_record))]
pub fn of_record(record: Record<'_>) -> Option<Packed>
    ensures some { is_some result ≡ good_record (record_of «record».entry) }
    ensures packed { IfSome result (PacksRecord «record».entry) }
{
    match record.contents {
        Contents::Value(value) => of_call(record.name, value),
        Contents::Children { left, right } => of_node(record.name, left, right),
    }
}
