// Whether entries are right, asked of the store before anything is written: each check hands on its value, or returns what fails.
#![tactic(auto)]

ghost use Rattle.std.specs.Prelude.{◌≡◌, ℕ, ◌*◌, ◌<◌, ◌≤◌, Bool, true, false, not, length, ◌==◌};
ghost use Rattle.model.specs.Records.{Record, Path as Route};
ghost use Rattle.model.specs.Verifier.{Verifier};
ghost use Rattle.path.specs.Packs.{path_in};
ghost use Rattle.slot.specs.Meant.{child_meant};
ghost use Rattle.store.specs.Stores.{Contains};
ghost use Rattle.conditions.specs.Evicts.{Within, Led, May};
ghost use Rattle.conditions.specs.Adds.{Told, Comes, AboveWithin, AboveLed, MayAdd};
ghost use Rattle.slot.specs.Layout.{number_in};

mod parts;

pub use parts::{Adding, Candidate, Edge, Failure, Way};
use path::Path;
use reads::{child_at, has_merkle_child, is_node, points_at};
use slot::child::Child;
use store::StoreRef;

// May what is at `path` be evicted by Merkle, under the node at `above`?
pub fn may_evict_merkle(store: StoreRef<'_>, path: &Path, above: &Path) -> Result<Edge, Failure>
    ensures within { Within store.entry.places result }
    ensures led { Led store.entry path.now above.now result }
    ensures may { (t : ℕ) (v : Verifier) → Contains store.entry v.store → May store.entry t v (path_in path.now.len path.now.bits) (path_in above.now.len above.now.bits) result }
{
    let Some(slot) = store.find(path) else {
        return Err(Failure::NotStored);
    };
    let Some(above_slot) = store.find(above) else {
        return Err(Failure::NoNodeAbove);
    };
    if !is_node(store, above_slot) {
        return Err(Failure::NoNodeAbove);
    }
    if !path.is_below(above) {
        return Err(Failure::NotBelow);
    }
    let side = path.side_of(above);
    if !points_at(store, above_slot, side, path) {
        return Err(Failure::PointerDiffers);
    }
    if has_merkle_child(store, slot) {
        return Err(Failure::ChildStored);
    }
    Ok(Edge {
        slot,
        above: above_slot,
        side,
    })
}

// Is it the same hash? A function, for its contract says it of the numbers that these words are.
fn same_hash(a: &[u64; 4], b: &[u64; 4]) -> bool
    ensures { result ≡ (number_in a.now == number_in b.now) }
{
    a == b
}

// In which way a record is added by Merkle, by what the node above knows on its side.
fn way_of(child: &Child, candidate: Candidate<'_>) -> Option<Way>
    ensures { (v : Verifier) (x : Record) (q : Route) (above : Record) → Told x candidate.entry → Comes v x q above (child_meant child.now) result }
{
    match child {
        Child::Absent => candidate.is_initial.then_some(Way::First),
        Child::Present(next, hash, by_blum) => {
            if next.is_same(&candidate.path) {
                if *by_blum {
                    return None;
                }
                let own = sha256::digest(candidate.merkle_bytes);
                return same_hash(hash, &own).then_some(Way::Again(own));
            }
            let is_between = candidate.is_initial
                && candidate.of_node
                && next.is_below(&candidate.path);
            is_between.then_some(Way::Between(*next, *hash, *by_blum))
        }
    }
}

// May a record be added by Merkle, under the node at `parent`?
pub fn may_add_merkle(
    store: StoreRef<'_>,
    candidate: Candidate<'_>,
    parent: &Path,
) -> Result<Adding, Failure>
    ensures within { AboveWithin store.entry.places result }
    ensures led { AboveLed store.entry parent.now result }
    ensures may { (t : ℕ) (v : Verifier) (x : Record) → Contains store.entry v.store → Told x candidate.entry → MayAdd store.entry t v x (path_in parent.now.len parent.now.bits) result }
{
    let Some(above) = store.find(parent) else {
        return Err(Failure::NoNodeAbove);
    };
    if !is_node(store, above) {
        return Err(Failure::NoNodeAbove);
    }
    if !candidate.path.is_below(parent) {
        return Err(Failure::NotBelow);
    }
    if store.find(&candidate.path).is_some() {
        return Err(Failure::AlreadyStored);
    }
    let side = candidate.path.side_of(parent);
    let child = child_at(store, above, side);
    let Some(way) = way_of(&child, candidate) else {
        return Err(Failure::PointerDiffers);
    };
    Ok(Adding { above, side, way })
}
