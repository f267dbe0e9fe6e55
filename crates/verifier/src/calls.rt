// Calls: Get and Set, of a key in the store.
ghost use Rattle.std.specs.Prelude.{◌≡◌, ℕ, ◌<◌, ◌≤◌, false, List, length, is_ok};
ghost use Rattle.std.specs.Option.{option_map};
ghost use Rattle.model.specs.Verifier.{Stored, Verifier, verifier_step, get as gets, set as sets};
ghost use Rattle.store.specs.Stores.{Contains};
ghost use Rattle.block.specs.Blocks.{block_words, Keeps, Taken};
ghost use Rattle.verifier.specs.Keys.{KeySlot, KeyAt};

use block::{SALT, STORE, store};
use conditions::Failure;
use reads::{has_key, has_value};
use record::key_path;
use store::{Store, StoreRef};

// The slot of a key's record, if it is in the store.
fn slot_of(store: StoreRef<'_>, key: &[u8]) -> Option<usize>
    ensures within { KeySlot store.entry.places result }
    ensures found { (xs : List Stored) → Contains store.entry xs → KeyAt store.entry xs key.now result }
{
    let i = store.find(&key_path(key))?;
    if !has_key(store, i, key) {
        return None;
    }
    Some(i)
}

// A key has just this value, or none.
pub fn get(block: &[u64], n: usize, key: &[u8], value: Option<&[u8]>) -> Result<(), Failure>
    requires few { 2 ≤ n }
    requires room { length block.now ≡ block_words n }
    ensures { (t : ℕ) (v : Verifier) → Keeps n block.now v → Taken n block.now result (verifier_step t v (gets key.now (option_map (λ x. x.now) value.entry))) }
{
    let store = store(block, n);
    let Some(i) = slot_of(store, key) else {
        return Err(Failure::NotStored);
    };
    if !has_value(store, i, value) {
        return Err(Failure::ValueDiffers);
    }
    Ok(())
}

// A key is given this value.
pub fn set(block: &mut [u64], n: usize, key: &[u8], value: &[u8]) -> Result<(), Failure>
    requires few { 2 ≤ n }
    requires room { length block.old ≡ block_words n }
    requires value { length value.now ≤ 1024 }
    ensures same { is_ok result ≡ false → block.new ≡ block.old }
    ensures step { (t : ℕ) (v : Verifier) → Keeps n block.old v → Taken n block.new result (verifier_step t v (sets key.now value.now)) }
{
    let Some(i) = slot_of(store(block, n), key) else {
        return Err(Failure::NotStored);
    };
    let salt = block[SALT];
    let (_, words) = block.split_at_mut(STORE);
    let mut store = Store::new(words, n, salt);
    store.set_value(i, value);
    Ok(())
}
