//! How many runs the nests of nodes have.

ghost use Rattle.std.specs.Prelude.{◌≡◌, ◌≤◌, ◌+◌, List, IfOk, Some, map, min, nat_le, nat_lt};
ghost use Rattle.lt_ast.specs.Syntax.{Declaration};
ghost use Rattle.lt_ast.specs.View.{program as declarations, run, word};
ghost use Rattle.lt_macros.specs.Answer.{asked_name};
ghost use Rattle.lt_macros.specs.Expansion.{is_wanted as is_a_wanted};
ghost use Rattle.lt_expand.specs.Nested.{Counted, counted_runs as all_runs, most_runs, runs_in_nest};
ghost use Rattle.lt_expand.specs.Nesting.{IsNestingOf, node_place};
ghost use Rattle.lt_expand.specs.inner.Nesting.{Tells};
ghost use Rattle.lt_types.specs.declared.program.Typed.{Typed};

use indexmap::IndexMap;
use lt_ast::{Decl, Name, RunDecl};
use lt_formula::Memory;
use lt_types::{Typed, well_typed_is_unrefused};
use std::alloc::Global;

// The most runs that a nest may have.
const MOST_RUNS: u32 = 16;

// One more than that: how many more there are isn't told.
const TOO_MANY: u32 = 17;

/// Where the nodes of a text stand, and how many runs their nests have, up to one more than there may be. Each node is counted
/// once, so no nest takes a deep stack.
#[derive(Drop)]
pub struct Nesting {
    nodes: IndexMap<String, Nested>,
}

/// A node that is found by its name.
#[derive(Clone, Copy)]
pub(crate) struct Nested {
    /// Its place among the declarations of the text.
    pub(crate) place: usize,

    /// How many runs its nest has.
    pub(crate) runs: u32,
}

impl Nesting {
    /// That of a text.
    ///
    /// # Errors
    ///
    /// Want of memory.
    pub fn new(alloc: Global, typed: &Typed) -> Result<Nesting, Memory>
        ensures { IfOk result (λ made. IsNestingOf (declarations typed.now.program) made) }
    {
        let mut nodes: IndexMap<String, Nested> = IndexMap::new(alloc);
        for (place, decl) in typed.program().decls.iter().enumerate() {
            if let Decl::Node(node) = decl {
                let runs = counted_runs(&nodes, &node.runs);
                let name = String::from_str(alloc, node.name.text.as_str())?;
                match nodes.insert(name, Nested { place, runs }) {
                    Ok(_) => {}
                    Err(_) => return Err(Memory),
                }
            }
        }
        Ok(Nesting { nodes })
    }

    /// Where the node of this name stands among the declarations.
    pub fn place(&self, name: &str) -> Option<usize>
        ensures { (ds : List Declaration) → IsNestingOf ds self.now →
            result ≡ node_place name.now 0 ds }
    {
        match self.nodes.get(name) {
            Some(nested) => Some(nested.place),
            None => None,
        }
    }

    /// Whether its nest has no more runs than it may have.
    pub fn has_few_runs(&self, name: &str) -> bool
        ensures { (ds : List Declaration) → IsNestingOf ds self.now →
            result ≡ nat_le (runs_in_nest (Some name.now) ds) most_runs }
    {
        match self.nodes.get(name) {
            Some(nested) => nested.runs <= MOST_RUNS,
            None => true,
        }
    }

    // So it is with the node that is asked for. The first node of a text runs none, since there is none before it.
    pub(crate) fn is_few(&self, wanted: Option<&str>) -> bool
        ensures { (typed : Typed) → IsNestingOf (declarations typed.program) self.now →
            result ≡ nat_le
            (runs_in_nest (asked_name wanted.entry) (declarations typed.program)) most_runs }
    {
        match wanted {
            None => {
                well_typed_is_unrefused();
                true
            }
            Some(name) => self.has_few_runs(name),
        }
    }
}

// How many runs these are, with those of the nodes that they run, up to one more than there may be.
fn counted_runs(nodes: &IndexMap<String, Nested>, runs: &[RunDecl]) -> u32
    ensures told { (known : List Counted) → Tells known nodes.now →
        result ≡ min (all_runs known (map run runs.now)) 17 }
    ensures few { result ≤ 17 }
{
    let mut sum: u32 = 0;
    for declared in runs {
        let more = match nodes.get(declared.node.text.as_str()) {
            Some(nested) => nested.runs.min(TOO_MANY),
            None => 0,
        };
        sum = capped(sum, more);
    }
    sum
}

// The first number, one more, and the second one, up to one more than there may be runs.
fn capped(sum: u32, more: u32) -> u32
    requires first { sum ≤ 17 }
    requires second { more ≤ 17 }
    ensures { result ≡ min (sum + 1 + more) 17 }
{
    (sum + 1 + more).min(TOO_MANY)
}

/// Whether the node that is asked for, or else the first one, runs others.
pub fn has_runs(typed: &Typed, wanted: Option<&str>) -> bool
    ensures { result ≡
        nat_lt 0 (runs_in_nest (asked_name wanted.entry) (declarations typed.now.program)) }
{
    for decl in &typed.program().decls {
        if let Decl::Node(node) = decl {
            if is_wanted(wanted, &node.name) {
                return !node.runs.is_empty();
            }
        }
    }
    false
}

// Whether a node has the name that is asked for, if one is.
fn is_wanted(wanted: Option<&str>, name: &Name) -> bool
    ensures { result ≡ is_a_wanted (asked_name wanted.entry) (word name.now) }
{
    match wanted {
        None => true,
        Some(text) => text == name.text.as_str(),
    }
}
