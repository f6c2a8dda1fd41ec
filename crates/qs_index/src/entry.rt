//! Comparisons of entries with one another.
ghost use Rattle.std.specs.Prelude.{◌≡◌, ◌+◌, ◌*◌, ◌^◌, ◌≤◌, length};
ghost use Rattle.std.specs.Str.{bytes_eq};
ghost use Rattle.qs_index.specs.inner.Entry.{number_of, is_before, begins};
ghost use Rattle.qs_index.specs.inner.Graph.{is_named};

// Two numbers as one of 64 bits, the first before the second.
#[inline(always)]
fn joint(first: u32, second: u32) -> u64
    ensures { result ≡ first * 2 ^ 32 + second }
{
    u64::from(first) * 0x1_0000_0000 + u64::from(second)
}

/// Whether `entry` is less than `other`: two comparisons of 64 bits at most.
#[inline(always)]
pub fn is_less(entry: &[u32; 4], other: &[u32; 4]) -> bool
    ensures { result ≡ is_before entry.now other.now }
{
    let [a, b, c, d] = *entry;
    let [p, q, r, s] = *other;
    let front = joint(a, b);
    let other_front = joint(p, q);
    if front != other_front {
        return front < other_front;
    }
    joint(c, d) < joint(r, s)
}

/// The entry as one number of 128 bits, of which its first number is the greatest part: entries are ordered as these are.
#[inline(always)]
pub fn key(entry: &[u32; 4]) -> u128
    ensures { result ≡ number_of entry.now }
{
    let [a, b, c, d] = *entry;
    u128::from(joint(a, b)) * 0x1_0000_0000_0000_0000 + u128::from(joint(c, d))
}

/// Whether `entry` is `other`.
#[inline(always)]
pub fn is_same(entry: &[u32; 4], other: &[u32; 4]) -> bool
    ensures { result ≡ bytes_eq entry.now other.now }
{
    let [a, b, c, d] = *entry;
    let [p, q, r, s] = *other;
    a == p && b == q && c == r && d == s
}

/// Whether `entry` begins with `prefix`.
#[inline(always)]
#[tactic(auto, using(crate::proofs::CompareSteps::compare_steps))]
pub fn begins(prefix: &[u32], entry: &[u32; 4]) -> bool
    requires { length prefix.now ≤ 4 }
    ensures { result ≡ begins prefix.now entry.now }
{
    for k in 0..prefix.len() {
        if entry[k] != prefix[k] {
            return false;
        }
    }
    true
}

/// Whether `entry` is of a named graph.
#[inline(always)]
pub fn is_named(entry: &[u32; 4]) -> bool
    ensures { result ≡ is_named entry.now }
{
    entry[0] != 0
}
