// What the header says of the log so far.
ghost use Rattle.std.specs.Prelude.{◌≡◌, ◌≤◌, length};
ghost use Rattle.model.specs.Monitor.{Limits as Meant, State};
ghost use Rattle.memory.specs.Keeping.{Kept, Laid};

use memory::{CERTIFIED, STOPPED};

// How many epochs are certified.
pub fn certified_in(mem: &[u64]) -> u64
    requires { 256 ≤ length mem.now }
    ensures kept { (l : Meant) (s : State) → Kept l mem.now s → result ≡ s.certified }
    ensures laid { (l : Meant) (s : State) → Laid l mem.now s → result ≡ s.certified }
{
    mem[CERTIFIED]
}

// Was the log wrong?
pub fn is_stopped(mem: &[u64]) -> bool
    requires { 256 ≤ length mem.now }
    ensures kept { (l : Meant) (s : State) → Kept l mem.now s → result ≡ s.stopped }
    ensures laid { (l : Meant) (s : State) → Laid l mem.now s → result ≡ s.stopped }
{
    mem[STOPPED] == 1
}
