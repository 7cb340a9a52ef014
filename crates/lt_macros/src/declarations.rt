//! The node of a text that is asked for, and what is declared before it.

ghost use Rattle.std.specs.Prelude.{◌≡◌, ℕ, [], IfOk, OnOk, bytes_eq, map, reverse};
ghost use Rattle.std.specs.List.{find};
ghost use Rattle.lt_ast.specs.Letters.{letters};
ghost use Rattle.lt_ast.specs.View.{declaration, word};
ghost use Rattle.lt_macros.specs.Answer.{asked_name};
ghost use Rattle.lt_macros.specs.Environment.{at_start};
ghost use Rattle.lt_macros.specs.Expansion.{is_wanted, node_among};
ghost use Rattle.lt_macros.specs.inner.Asking.{IsAsked};
ghost use Rattle.lt_macros.specs.inner.Handing.{AreRight};
ghost use Rattle.lt_macros.specs.inner.Rows.{rows};

use crate::declaring::{declare, put_exceptions};
use crate::scope::{Before, Scope};
use lt_ast::{Decl, Name, NodeDecl};
use lt_formula::Memory;
use std::alloc::Global;

/// A node, and the environment in which it is declared.
#[derive(Clone, Copy)]
pub(crate) struct DeclaredNode<'a> {
    /// The node.
    pub(crate) node: &'a NodeDecl,

    /// The environment.
    pub(crate) environment: usize,
}

/// The node that is asked for.
#[derive(Drop)]
pub(crate) struct Asked<'a> {
    /// The node.
    pub(crate) node: &'a NodeDecl,

    /// The environment in which it is declared.
    pub(crate) environment: usize,

    /// The nodes before it, which it may run.
    pub(crate) before: Vec<DeclaredNode<'a>>,
}

// The newest node of a name.
pub(crate) fn node_before<'a>(before: &[DeclaredNode<'a>], name: &str) -> Option<DeclaredNode<'a>>
    ensures found { result ≡
        find (λ d. bytes_eq name.now (letters d.node.now.name.text)) (reverse before.now) }
{
    let mut left = before.len();
    'nodes: while left > 0 {
        let declared = before[left - 1];
        if name == declared.node.name.text.as_str() {
            return Some(declared);
        }
        left -= 1;
    }
    None
}

// Whether a node has the name that is asked for, if one is.
fn is_wanted(wanted: Option<&str>, name: &Name) -> bool
    ensures { result ≡ is_wanted (asked_name wanted.entry) (word name.now) }
{
    match wanted {
        None => true,
        Some(text) => text == name.text.as_str(),
    }
}

// The first node that is asked for among declarations. Entries are added for what is declared before it.
pub(crate) fn asked_node<'a>(
    alloc: Global,
    scope: &mut Scope<'a>,
    decls: &'a [Decl],
    wanted: Option<&str>,
) -> Result<Option<Asked<'a>>, Memory>
    requires right { AreRight (rows scope.old) }
    ensures node { IfOk result (λ asked. (decimals : ℕ) →
        IsAsked decimals (rows scope.new) asked
        (node_among [] (at_start decimals) (asked_name wanted.entry) (map declaration decls.now))) }
    ensures right { OnOk result (AreRight (rows scope.new)) }
{
    let mut environment = 0;
    let mut before = Vec::new(alloc);
    for decl in decls {
        match decl {
            Decl::Node(node) => {
                if is_wanted(wanted, &node.name) {
                    return Ok(Some(Asked {
                        node,
                        environment,
                        before,
                    }));
                }
                before.push(DeclaredNode { node, environment })?;
            }
            Decl::Macro(declared) => environment = declare(scope, environment, declared)?,
            Decl::Exceptions(names) => {
                let none = Before::Terms(0);
                environment = put_exceptions(scope, environment, names, none)?;
            }
        }
    }
    Ok(None)
}
