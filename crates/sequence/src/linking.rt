// Chains of the indices that have one key.
ghost use Rattle.std.specs.Prelude.{◌≡◌, ◌<◌, ◌≤◌, ℕ, length, get_or, set};
ghost use Rattle.sequence.specs.Links.{Links};
ghost use Rattle.sequence.specs.Given.{AskedBelow, GivesBelow};

// Index i goes before the chain of its key.
// `head` and `next` stay single: with a struct of two `&mut`, `push` and its callers would promise to keep the two.
pub fn push(head: &mut [u32], next: &mut [u32], key: usize, i: usize)
    requires { (key < length head.old) × (i < length next.old) × (i < 0x1_0000) }
    ensures head_after { head.new ≡ set head.old key i }
    ensures next_after { next.new ≡ set next.old i (get_or head.old key 0) }
{
    next[i] = head[key];
    head[key] = i as u32;
}

// The chains of the indices below `count`, by their keys, which are below `keys`.
pub fn link<K: Fn(usize) -> usize>(
    keys: usize,
    count: usize,
    key: K,
    head: &mut [u32],
    next: &mut [u32],
)
    requires asked { AskedBelow count (K.pre key) }
    requires keyed { (i k : ℕ) → i < count → K.post key i k → k < keys }
    requires in_bounds { (keys ≤ length head.old) × (count ≤ length next.old) × (count < 0x1_0000) }
    ensures { (f : ℕ → ℕ) → GivesBelow count (K.post key) f → Links f keys count 0 head.new next.new }
{
    head[..keys].fill(count as u32);
    for i in (0..count).rev() {
        push(head, next, key(i), i);
    }
}
