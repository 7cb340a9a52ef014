//! What is visible at a place of a text.

ghost use Rattle.std.specs.Prelude.{◌≡◌, ◌≤◌, [], ◌∷◌, length, map, option_map, IfOk, OnOk};
ghost use Rattle.lt_ast.specs.Letters.{letters};
ghost use Rattle.lt_ast.specs.View.{word, words};
ghost use Rattle.lt_num.specs.Bounds.{most_decimals};
ghost use Rattle.lt_types.specs.inner.Checks.{Checks};
ghost use Rattle.lt_types.specs.Environment.{at_start, found, found_node, group_entry, is_among, node_names, with_bindings, with_exceptions, with_variables, with_variables_alone};
ghost use Rattle.lt_types.specs.Refusals.{new_names};
ghost use Rattle.lt_types.specs.inner.Scoping.{declared_since, entry_view, node_view, role_view, since, with_oldest_exceptions, with_oldest_names};
ghost use Rattle.lt_types.specs.View.{typed_name};

use crate::entry::{Entry, Role};
use crate::name_stack::NameStack;
use crate::node_types::NodeTypes;
use crate::refusal::TypeRefusal;
use lt_ast::{Name, Names, TypeName};
use std::alloc::Global;
use std::marker::Model;

// The names that are visible, in three spaces, and the number of decimals that a real has.
#[derive(Drop)]
pub(crate) struct Scope {
    decimals: u32,

    // Variables, parameters and macros ..
    names: NameStack,

    // .. and what each stands for.
    entries: Vec<Entry>,

    // Nodes ..
    nodes: NameStack,

    // .. and what is known of each.
    types: Vec<NodeTypes>,

    exceptions: NameStack,
}

impl Model for Scope {
    ghost use Rattle.std.specs.Prelude.{map, reverse};
    ghost use Rattle.lt_types.specs.Environment.{Environment};
    ghost use Rattle.lt_types.specs.inner.Scoping.{bindings, entry_view, nodes_of, IsMatched};

    ghost Value = { Environment };

    ghost view = { λ s. record {
      decimals = s.decimals;
      names = bindings s.names (reverse (map entry_view s.entries.items));
      nodes = nodes_of s.nodes (reverse s.types.items);
      exceptions = s.exceptions;
    } };

    ghost invariant = { λ s. IsMatched s.decimals s.names s.entries.items s.nodes s.types.items };
}

impl Scope {
    // Before the first declaration.
    #[tactic(auto, using(crate::proofs::Leading::leads))]
    pub(crate) fn new(alloc: Global, decimals: u32) -> Result<Scope, TypeRefusal>
        requires { decimals ≤ most_decimals }
        ensures made { IfOk result (λ s. s ≡ at_start decimals) }
        ensures memory { Checks result [] }
    {
        let mut exceptions = NameStack::new(alloc);
        exceptions.push("Deadlock")?;
        Ok(Scope {
            decimals,
            names: NameStack::new(alloc),
            entries: Vec::new(alloc),
            nodes: NameStack::new(alloc),
            types: Vec::new(alloc),
            exceptions,
        })
    }

    // Where nothing is declared but variables; of equal names the first counts.
    pub(crate) fn with_variables(
        alloc: Global,
        decimals: u32,
        variables: &[(String, TypeName)],
    ) -> Result<Scope, TypeRefusal>
        requires { decimals ≤ most_decimals }
        ensures made { IfOk result (λ s. s ≡
            with_variables_alone decimals (map typed_name variables.now)) }
        ensures memory { Checks result [] }
    {
        let mut scope = Scope::new(alloc, decimals)?;
        for (name, kind) in variables.iter().rev() {
            scope.declare(name.as_str(), Entry::Variable(*kind))?;
        }
        Ok(scope)
    }

    // How many decimals a real has.
    pub(crate) fn decimals(&self) -> u32
        ensures same { result ≡ self.now.decimals }
        ensures few { result ≤ most_decimals }
    {
        self.decimals
    }

    // What the newest of the names that are this one stands for.
    #[tactic(auto, using(crate::proofs::Stacks::scope_steps))]
    pub(crate) fn lookup(&self, name: &str) -> Option<&Entry>
        ensures { option_map (λ x. entry_view x.now) result ≡ found self.now.names name.now }
    {
        match self.names.newest(name) {
            Some(place) => Some(&self.entries[place]),
            None => None,
        }
    }

    // How many names there are.
    #[tactic(auto, using(crate::proofs::Stacks::scope_steps))]
    pub(crate) fn name_count(&self) -> usize
        ensures { result ≡ length self.now.names }
    {
        self.names.len()
    }

    // That none of these names was declared since there were so many, and that none of them stands twice.
    #[tactic(auto, using(crate::proofs::Stacks::scope_steps))]
    pub(crate) fn check_new_names(&mut self, from: usize, names: &Names) -> Result<(), TypeRefusal>
        requires { from ≤ length self.old.names }
        ensures answered { Checks result
            (new_names (declared_since from self.old) (words names.now)) }
        ensures kept { self.new ≡ self.old }
    {
        self.names.check_new(from, names)
    }

    // A name, and what it stands for.
    pub(crate) fn declare(&mut self, name: &str, entry: Entry) -> Result<(), TypeRefusal>
        ensures ok { OnOk result (self.new ≡
            record self.old {
              names = record { name = name.now; entry = entry_view entry } ∷
                  self.old.names;
            }) }
        ensures memory { Checks result [] }
    {
        self.entries.push(entry)?;
        let named = self.names.push(name);
        if named.is_err() {
            self.entries.pop();
        }
        named
    }

    // The names of a group.
    pub(crate) fn declare_group(
        &mut self,
        role: Role,
        names: &Names,
        kind: TypeName,
        by_ref: bool,
    ) -> Result<(), TypeRefusal>
        ensures ok { OnOk result (self.new ≡
            record self.old {
              names = with_bindings (group_entry (role_view role) kind by_ref) (words names.now)
                  self.old.names;
            }) }
        ensures memory { Checks result [] }
    {
        for name in &names.items {
            self.declare(name.text.as_str(), Entry::of_group(role, kind, by_ref))?;
        }
        Ok(())
    }

    // Variables of these types, in order and as far as both go.
    pub(crate) fn declare_variables(
        &mut self,
        names: &Names,
        kinds: &[TypeName],
    ) -> Result<(), TypeRefusal>
        ensures ok { OnOk result (self.new ≡
            record self.old {
              names = with_variables (words names.now) kinds.now self.old.names;
            }) }
        ensures memory { Checks result [] }
    {
        for (name, kind) in names.items.iter().zip(kinds) {
            self.declare(name.text.as_str(), Entry::Variable(*kind))?;
        }
        Ok(())
    }

    // Forgets the newest names, so that so many are left.
    #[tactic(auto, using(crate::proofs::Stacks::scope_steps))]
    pub(crate) fn forget_names(&mut self, count: usize)
        requires { count ≤ length self.old.names }
        ensures { self.new ≡ with_oldest_names count self.old }
    {
        self.names.truncate(count);
        self.entries.truncate(count);
    }

    // Whether an exception of this name is visible.
    #[tactic(auto, using(crate::proofs::Stacks::newest_among))]
    pub(crate) fn is_exception(&self, name: &str) -> bool
        ensures { result ≡ is_among name.now self.now.exceptions }
    {
        self.exceptions.newest(name).is_some()
    }

    // How many exceptions there are.
    pub(crate) fn exception_count(&self) -> usize
        ensures { result ≡ length self.now.exceptions }
    {
        self.exceptions.len()
    }

    // That none of these is an exception that was declared since there were so many, and that none of them stands twice.
    pub(crate) fn check_new_exceptions(
        &mut self,
        from: usize,
        names: &Names,
    ) -> Result<(), TypeRefusal>
        requires { from ≤ length self.old.exceptions }
        ensures answered { Checks result
            (new_names (since from self.old.exceptions) (words names.now)) }
        ensures kept { self.new ≡ self.old }
    {
        self.exceptions.check_new(from, names)
    }

    // Exceptions.
    pub(crate) fn declare_exceptions(&mut self, names: &Names) -> Result<(), TypeRefusal>
        ensures ok { OnOk result (self.new ≡ with_exceptions self.old (words names.now)) }
        ensures memory { Checks result [] }
    {
        self.exceptions.push_all(names)
    }

    // One exception.
    pub(crate) fn declare_exception(&mut self, name: &Name) -> Result<(), TypeRefusal>
        ensures ok { OnOk result (self.new ≡ with_exceptions self.old (word name.now ∷ [])) }
        ensures memory { Checks result [] }
    {
        self.exceptions.push(name.text.as_str())
    }

    // Forgets the newest exceptions, so that so many are left.
    pub(crate) fn forget_exceptions(&mut self, count: usize)
        requires { count ≤ length self.old.exceptions }
        ensures { self.new ≡ with_oldest_exceptions count self.old }
    {
        self.exceptions.truncate(count);
    }

    // That no node has this name.
    #[tactic(auto, using(crate::proofs::Leading::leads, crate::proofs::Stacks::new_node_names))]
    pub(crate) fn check_new_node(&self, name: &Name) -> Result<(), TypeRefusal>
        ensures { Checks result (new_names (node_names self.now.nodes) (word name.now ∷ [])) }
    {
        if self.nodes.newest(name.text.as_str()).is_some() {
            return Err(TypeRefusal::Twice(name.span));
        }
        Ok(())
    }

    // What is known of the node of this name.
    #[tactic(auto, using(crate::proofs::Stacks::node_steps))]
    pub(crate) fn node(&self, name: &str) -> Option<&NodeTypes>
        ensures { option_map (λ x. node_view name.now x.now) result ≡
            found_node self.now.nodes name.now }
    {
        match self.nodes.newest(name) {
            Some(place) => Some(&self.types[place]),
            None => None,
        }
    }

    // A node, and what is known of it.
    #[tactic(auto, using(crate::proofs::Stacks::node_steps))]
    pub(crate) fn declare_node(&mut self, name: &Name, types: NodeTypes) -> Result<(), TypeRefusal>
        ensures ok { OnOk result (self.new ≡
            record self.old { nodes = node_view (letters name.now.text) types ∷ self.old.nodes }) }
        ensures memory { Checks result [] }
    {
        self.types.push(types)?;
        let named = self.nodes.push(name.text.as_str());
        if named.is_err() {
            self.types.pop();
        }
        named
    }
}
