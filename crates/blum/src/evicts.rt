// EvictBlum and EvictBlumMerkle.
ghost use Rattle.std.specs.Prelude.{◌≡◌, ℕ, ◌<◌, ◌≤◌, false, List, length, is_ok};
ghost use Rattle.model.specs.Records.{is_data};
ghost use Rattle.model.specs.Verifier.{Verifier, verifier_step, evict_blum, evict_blum_merkle, with_store, without};
ghost use Rattle.model.specs.Monitor.{element_hash};
ghost use Rattle.path.specs.Packs.{path_in};
ghost use Rattle.path.specs.Times.{timestamp_of};
ghost use Rattle.slot.specs.Layout.{Slot, bytes_in, number_in};
ghost use Rattle.store.specs.Holding.{stored_at};
ghost use Rattle.store.specs.Stores.{slot_of, stored_of};
ghost use Rattle.block.specs.Blocks.{block_words, Keeps, Leads, store_in};
ghost use Rattle.blum_conditions.specs.Links.{marked};
ghost use Rattle.blum.specs.Evicts.{without_at, Evicts};

use block::{SALT, STORE, set_clock, store};
use blum_conditions::{Link, link_to, may_evict_blum};
use conditions::Failure;
use gather::element_out;
use path::{Path, Timestamp};
use sha256::digest;
use slot::child::Child;
use store::{Store, StoreRef};
use sums::{MESSAGE_BYTES, SECRET_BYTES, secret_out};

// The hash of the record in slot `i` as an element, evicted at this timestamp by this verifier.
fn element_hash_of(
    store: StoreRef<'_>,
    i: usize,
    timestamp: Timestamp,
    verifier: u8,
    secret: &[u64; 4],
) -> [u64; 4]
    requires { i < store.places }
    ensures { Slot (slot_of store.entry i) → number_in result ≡ element_hash (bytes_in secret.now) (record { rec = (stored_of store.entry i).rec; timestamp = timestamp_of timestamp; verifier = verifier }) }
{
    // no heap: room for the longest, and where this one ends
    let mut message = [0u8; MESSAGE_BYTES];
    secret_out(secret, &mut message);
    let end = element_out(
        store.slot(i),
        timestamp,
        verifier,
        &mut message,
        SECRET_BYTES,
    );
    digest(&message[0..end])
}

// The record in slot `i`, which is at this path, leaves at this timestamp.
fn leave(block: &mut [u64], n: usize, i: usize, path: &Path, timestamp: Timestamp)
    requires few { 2 ≤ n }
    requires room { length block.old ≡ block_words n }
    requires within { i < n }
    ensures { (v : Verifier) → Keeps n block.old v → Leads n block.old path.now.len path.now.bits i → Keeps n block.new (without_at v (path_in path.now.len path.now.bits) (timestamp_of timestamp)) }
{
    take_out(block, n, i);
    set_clock(block, timestamp, path);
}

// The record in slot `i`, where a path was found, is in the store no more.
fn take_out(block: &mut [u64], n: usize, i: usize)
    requires few { 2 ≤ n }
    requires room { length block.old ≡ block_words n }
    requires within { i < n }
    ensures room { length block.new ≡ block_words n }
    ensures without { (v : Verifier) (k : ℕ) (ws : List ℕ) → Keeps n block.old v → Leads n block.old k ws i → Keeps n block.new (with_store v (without (path_in k ws) v.store)) }
{
    let salt = block[SALT];
    let (_, words) = block.split_at_mut(STORE);
    let mut store = Store::new(words, n, salt);
    store.remove(i);
}

// The node that a link was found in knows that the record was evicted by Blum.
fn mark(block: &mut [u64], n: usize, path: &Path, link: Link)
    requires few { 2 ≤ n }
    requires room { length block.old ≡ block_words n }
    requires within { link.above < n }
    ensures room { length block.new ≡ block_words n }
    ensures marked { (v : Verifier) (k : ℕ) (ws : List ℕ) → Keeps n block.old v → Leads n block.old k ws link.above → is_data (stored_at n (store_in n block.old) link.above).rec ≡ false → Keeps n block.new (with_store v (marked n (store_in n block.old) (path_in path.now.len path.now.bits) (path_in k ws) link v.store)) }
    ensures stay { (k : ℕ) (ws : List ℕ) (i : ℕ) → Leads n block.old k ws i → Leads n block.new k ws i }
{
    let salt = block[SALT];
    let (_, words) = block.split_at_mut(STORE);
    let mut store = Store::new(words, n, salt);
    let by_blum = Child::Present(*path, link.hash, true);
    store.set_child(link.above, link.side, &by_blum);
}

// What is at `path`, added by Blum, is evicted by Blum at this timestamp: the hash of the element.
pub fn evict_blum(
    block: &mut [u64],
    n: usize,
    verifier: u8,
    secret: &[u64; 4],
    path: &Path,
    timestamp: Timestamp,
) -> Result<[u64; 4], Failure>
    requires few { 2 ≤ n }
    requires room { length block.old ≡ block_words n }
    ensures same { is_ok result ≡ false → block.new ≡ block.old }
    ensures step { (v : Verifier) → Keeps n block.old v → Evicts n block.new result (bytes_in secret.now) (timestamp_of timestamp) (verifier_step verifier v (evict_blum (path_in path.now.len path.now.bits) (timestamp_of timestamp))) }
{
    let i = may_evict_blum(block, n, path, timestamp, false)?;
    let hash = element_hash_of(store(block, n), i, timestamp, verifier, secret);
    leave(block, n, i, path, timestamp);
    Ok(hash)
}

// What is at `path`, added by Merkle, is evicted by Blum at this timestamp, and the node at `above` knows that: the hash of the element.
pub fn evict_blum_merkle(
    block: &mut [u64],
    n: usize,
    verifier: u8,
    secret: &[u64; 4],
    path: &Path,
    above: &Path,
    timestamp: Timestamp,
) -> Result<[u64; 4], Failure>
    requires few { 2 ≤ n }
    requires room { length block.old ≡ block_words n }
    ensures same { is_ok result ≡ false → block.new ≡ block.old }
    ensures step { (v : Verifier) → Keeps n block.old v → Evicts n block.new result (bytes_in secret.now) (timestamp_of timestamp) (verifier_step verifier v (evict_blum_merkle (path_in path.now.len path.now.bits) (path_in above.now.len above.now.bits) (timestamp_of timestamp))) }
{
    let i = may_evict_blum(block, n, path, timestamp, true)?;
    let link = link_to(store(block, n), path, above)?;
    let hash = element_hash_of(store(block, n), i, timestamp, verifier, secret);
    mark(block, n, path, link);
    leave(block, n, i, path, timestamp);
    Ok(hash)
}
