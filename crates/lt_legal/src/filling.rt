//! The table of nodes.

ghost use Rattle.std.specs.Prelude.{◌≡◌, ◌≤◌, ◌<◌, ◌^◌, ◌+◌, ◌&&◌, ◌||◌, false, drop, length, map, vec_capacity};
ghost use Rattle.lt_legal.specs.Nodes.{along, found_at, found_of, plus, run};
ghost use Rattle.lt_legal.specs.NodeView.{node_view};

use crate::found::Found;
use crate::node::Node;

/// Finds what each tree has, by the number of its node.
pub fn fill(nodes: &[Node], found: &mut Vec<Found>)
    requires { length nodes.now ≤ vec_capacity found.old }
    ensures table { found.new.items ≡ run (map node_view nodes.now) }
    ensures room { vec_capacity found.old ≤ vec_capacity found.new }
{
    found.clear();
    found
        .resize(
            nodes.len(),
            Found {
                has: false,
                size: 0,
            },
        )
        .unwrap();
    let mut number = nodes.len();
    while number > 0 {
        number -= 1;
        let one = find(&nodes[number], &found[number + 1..]);
        found[number] = one;
    }
}

// What a tree has, by what those have whose nodes follow.
fn find(node: &Node, behind: &[Found]) -> Found
    ensures { result ≡ found_of (node_view node.now) behind.now }
{
    match node {
        Node::Tip(passes) => Found {
            has: *passes,
            size: 1,
        },
        Node::Order => {
            let left = find_at(behind, 0);
            let right = find_at(behind, left.size);
            Found {
                has: left.has || right.has,
                size: plus(plus(1, left.size), right.size),
            }
        }
        Node::Choice(weights) => {
            let below = go_along(weights, behind);
            Found {
                has: below.has,
                size: plus(1, below.size),
            }
        }
        Node::Spoilt(passes, weights) => {
            let below = go_along(weights, behind);
            Found {
                has: *passes,
                size: plus(1, below.size),
            }
        }
    }
}

// What parts have together.
fn go_along(weights: &[bool], behind: &[Found]) -> Found
    ensures { result ≡ along weights.now behind.now (record { has = false; size = 0 }) }
{
    let mut all = Found {
        has: false,
        size: 0,
    };
    for weight in weights {
        let part = find_at(behind, all.size);
        all = joined(all, *weight, part);
    }
    all
}

// What parts have with one more, whose weight is positive or isn't.
fn joined(all: Found, weight: bool, part: Found) -> Found
    ensures { result ≡ record {
      has = all.has || (weight && part.has);
      size = plus all.size part.size;
    } }
{
    Found {
        has: all.has || (weight && part.has),
        size: plus(all.size, part.size),
    }
}

// What the tree has whose node is so far behind.
pub fn find_at(behind: &[Found], number: u32) -> Found
    ensures { result ≡ found_at behind.now number }
{
    match behind.get(number as usize) {
        Some(one) => *one,
        None => Found {
            has: false,
            size: 0,
        },
    }
}

// A sum, up to the greatest number.
pub(crate) fn plus(one: u32, other: u32) -> u32
    ensures { result ≡ plus one other }
{
    one.saturating_add(other)
}
