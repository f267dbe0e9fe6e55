// What the node above an evicted record knows of it.
ghost use Rattle.std.specs.Prelude.{◌≡◌};
ghost use Rattle.model.specs.Verifier.{Verifier};
ghost use Rattle.path.specs.Packs.{path_in};
ghost use Rattle.store.specs.Stores.{Contains};
ghost use Rattle.blum_conditions.specs.Links.{LinkWithin, LinkLed, Linked};

use conditions::Failure;
use path::{Path, Side};
use reads::{child_at, is_node};
use slot::child::Child;
use store::StoreRef;

// Where the node above is, on which side of it, and the hash that it knows.
#[derive(Clone, Copy)]
pub struct Link {
    pub above: usize,
    pub side: Side,
    pub hash: [u64; 4],
}

// Does the node at `above` point at the path, not by Blum?
pub fn link_to(store: StoreRef<'_>, path: &Path, above: &Path) -> Result<Link, Failure>
    ensures within { LinkWithin store.entry.places result }
    ensures led { LinkLed store.entry.places store.entry.salt store.entry.words.now above.now.len above.now.bits result }
    ensures linked { (v : Verifier) → Contains store.entry v.store → Linked store.entry.places store.entry.words.now v (path_in path.now.len path.now.bits) (path_in above.now.len above.now.bits) result }
{
    let Some(slot) = store.find(above) else {
        return Err(Failure::NoNodeAbove);
    };
    if !is_node(store, slot) {
        return Err(Failure::NoNodeAbove);
    }
    if !path.is_below(above) {
        return Err(Failure::NotBelow);
    }
    let side = path.side_of(above);
    let Child::Present(next, hash, by_blum) = child_at(store, slot, side) else {
        return Err(Failure::PointerDiffers);
    };
    if !next.is_same(path) {
        return Err(Failure::PointerDiffers);
    }
    if by_blum {
        return Err(Failure::PointerDiffers);
    }
    Ok(Link {
        above: slot,
        side,
        hash,
    })
}
