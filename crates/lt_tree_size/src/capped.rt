//! Numbers up to one more than a tree may have nodes.

ghost use Rattle.std.specs.Prelude.{◌≡◌, ◌≤◌, ◌+◌, ◌-◌, ◌*◌, ℕ};
ghost use Rattle.lt_term.specs.Size.{capped};

// One more than the greatest number of nodes that a tree may have: greater numbers count as this
// one.
const MOST: u64 = 65_537;

/// A number, and so many times another one, up to 65,537.
#[tactic(auto, using(crate::proofs::Greatest::joined_capped))]
pub fn joined(number: u32, copies: u32, part: u32) -> u32
    requires number { number ≤ 65537 }
    requires copies { copies ≤ 65537 }
    requires part { part ≤ 65537 }
    ensures some { 1 ≤ number → 1 ≤ result }
    ensures few { result ≤ 65537 }
    ensures is { (x c m : ℕ) → number ≡ capped x → copies ≡ capped c → part ≡ capped m →
        result ≡ capped (x + c * m) }
{
    (number as u64 + copies as u64 * part as u64).min(MOST) as u32
}

/// The nodes of a tree in which so many leaves are replaced by a tree of so many nodes, up to 65,537.
#[tactic(auto, using(crate::proofs::Greatest::grown_capped))]
pub fn grown(nodes: u32, copies: u32, part: u32) -> u32
    requires nodes { nodes ≤ 65537 }
    requires copies { copies ≤ 65537 }
    requires part { part ≤ 65537 }
    requires some { 1 ≤ part }
    ensures some { 1 ≤ nodes → 1 ≤ result }
    ensures few { result ≤ 65537 }
    ensures is { (x c m : ℕ) → 1 ≤ x → 1 ≤ m → nodes ≡ capped x → copies ≡ capped c →
        part ≡ capped m → result ≡ capped (x + c * (m - 1)) }
{
    (nodes as u64 + copies as u64 * (part as u64 - 1)).min(MOST) as u32
}
