// A monitor's memory as it is at first.
ghost use Rattle.std.specs.Prelude.{◌≡◌, ℕ, ◌+◌, ◌*◌, ◌<◌, ◌≤◌, true, false, ◌&&◌, length, ◌==◌, slice_index};
ghost use Rattle.model.specs.Verifier.{new_verifier};
ghost use Rattle.model.specs.Monitor.{Limits as Meant, new_state};
ghost use Rattle.slot.specs.Parts.{part};
ghost use Rattle.block.specs.Blocks.{block_words, Keeps};
ghost use Rattle.memory.specs.Keeping.{block_start, Kept};
ghost use Rattle.memory.specs.Opening.{Headed, salt_from};
ghost use Rattle.memory.specs.Ranges.{Agrees, Bounded, in_bounds, words_for};

use crate::limits::block_start;
use crate::{CERTIFIED, HEADER, Limits, Memory, SECRET, STOPPED, words_needed};
use slot::write_bytes;

// The salt of every store. An element's hash is taken over more bytes, so this is none.
fn salt_of(secret: &[u8; 32]) -> u64
    ensures { result ≡ salt_from secret.now }
{
    let mut message = [0u8; 33];
    message[0..32].copy_from_slice(secret);
    let hash = sha256::digest(&message);
    hash[0]
}

fn write_header(head: &mut [u64], limits: Limits, secret: &[u8; 32])
    requires { length head.old ≡ 256 }
    ensures { Headed head.new limits secret.now }
{
    head[0] = limits.verifiers as u64;
    head[1] = limits.places as u64;
    head[2] = limits.epochs as u64;
    head[STOPPED] = 0;
    head[CERTIFIED] = 0;
    write_bytes(&mut head[SECRET..SECRET + 4], secret);
}

// Opens each verifier's block. The first verifier has the root.
fn open_blocks(memory: &mut Memory<'_>, salt: u64)
    ensures same { memory.new.words.ghost_name ≡ memory.old.words.ghost_name }
    ensures limits { memory.new.limits ≡ memory.old.limits }
    ensures head { (i : ℕ) → i < 256 → slice_index memory.new.words.now i ≡ slice_index memory.old.words.now i }
    ensures low { (a k : ℕ) → a + k ≤ 256 + 32 * memory.old.limits.epochs → part a k memory.new.words.now ≡ part a k memory.old.words.now }
    ensures blocks { (t : ℕ) → t < memory.old.limits.verifiers → Keeps memory.old.limits.places (part (block_start memory.old.limits.epochs memory.old.limits.places t) (block_words memory.old.limits.places) memory.new.words.now) (new_verifier t) }
{
    let limits = memory.limits;
    // By index: what `chunks_exact_mut` lends is known after the loop only by how many words it is.
    for t in 0..limits.verifiers {
        let a = block_start(limits, t);
        block::open(
            &mut memory.words[a..a + block::STORE + 192 * limits.places],
            limits.places,
            salt,
            t == 0,
        );
    }
}

fn write_all(memory: &mut Memory<'_>, secret: &[u8; 32])
    ensures same { memory.new.words.ghost_name ≡ memory.old.words.ghost_name }
    ensures kept { (l : Meant) → Agrees memory.old.limits l → l.secret ≡ secret.now → Kept l memory.new.words.now (new_state l) }
{
    let limits = memory.limits;
    write_header(&mut memory.words[0..HEADER], limits, secret);
    memory.words[HEADER..HEADER + 32 * limits.epochs].fill(0);
    open_blocks(memory, salt_of(secret));
}

// Opens memory for a monitor with these limits and this secret, whatever the words were.
// False, and nothing is written, if the limits are out of range or need other memory.
pub fn open(mem: &mut [u64], limits: Limits, secret: &[u8; 32]) -> bool
    ensures same { result ≡ false → mem.new ≡ mem.old }
    ensures ok { result ≡ (in_bounds limits && length mem.old == words_for limits) }
    ensures kept { (l : Meant) → Agrees limits l → l.secret ≡ secret.now → result ≡ true → Kept l mem.new (new_state l) }
{
    let Some(needed) = words_needed(limits) else {
        return false;
    };
    if mem.len() != needed {
        return false;
    }
    write_all(&mut Memory { words: mem, limits }, secret);
    true
}
