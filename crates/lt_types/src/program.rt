//! Programs.

ghost use Rattle.std.specs.Prelude.{◌≡◌, ◌≤◌, ◌++◌, [], IfErr, IfOk, OnOk, map};
ghost use Rattle.lt_ast.specs.View.{declaration, macro, program as declarations};
ghost use Rattle.lt_num.specs.Bounds.{most_decimals};
ghost use Rattle.lt_types.specs.Answer.{Leads};
ghost use Rattle.lt_types.specs.inner.Checks.{Checks};
ghost use Rattle.lt_types.specs.Environment.{with_declaration};
ghost use Rattle.lt_types.specs.Refusals.{declaration_refusals, declarations_refusals, new_macro, type_refusals, unless};
ghost use Rattle.lt_types.specs.Spelled.{IsSpelled};
ghost use Rattle.lt_types.specs.inner.Given.{node_declaration};
ghost use Rattle.lt_types.specs.Typing.{IsWellTyped, has_node};

use crate::entry::Role;
use crate::groups::{check_groups, check_macro, declare_macro};
use crate::node_types::NodeTypes;
use crate::refusal::TypeRefusal;
use crate::runs::check_runs;
use crate::scope::Scope;
use crate::traces::check_trace;
use lt_ast::{Decl, MacroDecl, NodeDecl, Program};
use std::alloc::Global;

/// A program that some text spells, and that is well typed.
#[derive(Drop)]
pub struct Typed {
    program: Program,
    decimals: u32,
    ghost few: { decimals ≤ most_decimals },
    ghost spelled: { ∥ IsSpelled (declarations program) ∥₁ },
    ghost unrefused: { type_refusals decimals (declarations program) ≡ [] },
}

impl Typed {
    /// The program.
    #[tactic(auto, using(crate::proofs::Checking::unrefused_typed))]
    pub fn program(&self) -> &Program
        ensures same { result.now ≡ self.now.program }
        ensures typed { IsWellTyped self.now.decimals (declarations result.now) }
    {
        &self.program
    }

    /// How many decimals its reals have.
    pub fn decimals(&self) -> u32
        ensures same { result ≡ self.now.decimals }
        ensures few { result ≤ most_decimals }
    {
        self.decimals
    }

    /// The program, without the fact.
    pub fn into_program(self) -> Program
        ensures { result ≡ self.program }
    {
        self.program
    }
}

/// Checks a program that some text spells against the rules. A real has so many decimals, 0 to 6.
///
/// # Errors
///
/// The first rule that the program breaks, in the order of its text, or [`TypeRefusal::Memory`] where memory ran out.
#[tactic(auto, using(crate::proofs::Checking::checked))]
pub fn check(alloc: Global, program: Program, decimals: u32) -> Result<Typed, TypeRefusal>
    requires spelled { IsSpelled (declarations program) }
    requires few { decimals ≤ most_decimals }
    ensures same { IfOk result (λ t. (t.program ≡ program) × (t.decimals ≡ decimals)) }
    ensures typed { IfOk result (λ t. IsWellTyped decimals (declarations program)) }
    ensures only { IsWellTyped decimals (declarations program) →
        IfErr result (λ r. r ≡ TypeRefusal.Memory) }
    ensures refused { IfErr result (λ r. Leads r (type_refusals decimals (declarations program))) }
{
    check_program(alloc, &program, decimals)?;
    Ok(Typed { program, decimals })
}

// A program.
#[tactic(auto, using(crate::proofs::Leading::leads))]
fn check_program(alloc: Global, program: &Program, decimals: u32) -> Result<(), TypeRefusal>
    requires few { decimals ≤ most_decimals }
    ensures { Checks result (type_refusals decimals (declarations program.now)) }
{
    let mut scope = Scope::new(alloc, decimals)?;
    check_text(alloc, &mut scope, &program.decls)
}

// The declarations of a text, and that one of them is a node.
#[tactic(auto, using(crate::proofs::Leading::leads))]
fn check_text(alloc: Global, scope: &mut Scope, decls: &[Decl]) -> Result<(), TypeRefusal>
    ensures { Checks result (declarations_refusals scope.old (map declaration decls.now) ++
        unless (has_node (map declaration decls.now)) TypeRefusal.NoNode) }
{
    check_decls(alloc, scope, decls)?;
    if has_a_node(decls) {
        return Ok(());
    }
    Err(TypeRefusal::NoNode)
}

// The declarations of a text. Their names stay in the scope.
fn check_decls(alloc: Global, scope: &mut Scope, decls: &[Decl]) -> Result<(), TypeRefusal>
    ensures { Checks result (declarations_refusals scope.old (map declaration decls.now)) }
{
    for decl in decls {
        check_decl(alloc, scope, decl)?;
    }
    Ok(())
}

// A declaration of a text. Its names stay in the scope.
fn check_decl(alloc: Global, scope: &mut Scope, decl: &Decl) -> Result<(), TypeRefusal>
    ensures answered { Checks result (declaration_refusals scope.old (declaration decl.now)) }
    ensures declared { OnOk result (scope.new ≡ with_declaration scope.old (declaration decl.now)) }
{
    match decl {
        Decl::Node(node) => check_node(alloc, scope, node),
        Decl::Macro(declared) => {
            check_new_macro(scope, declared)?;
            check_macro(alloc, scope, declared)?;
            declare_macro(alloc, scope, declared)
        }
        Decl::Exceptions(names) => {
            scope.check_new_exceptions(0, names)?;
            scope.declare_exceptions(names)
        }
    }
}

// A node.
#[tactic(auto, using(crate::proofs::Leading::leads, crate::proofs::Scopes::scope_ends, crate::proofs::Scopes::node_oldest))]
fn check_node(alloc: Global, scope: &mut Scope, declared: &NodeDecl) -> Result<(), TypeRefusal>
    ensures answered { Checks result
        (declaration_refusals scope.old (node_declaration declared.now)) }
    ensures declared { OnOk result (scope.new ≡
        with_declaration scope.old (node_declaration declared.now)) }
{
    scope.check_new_node(&declared.name)?;
    let before = scope.name_count();
    check_groups(alloc, scope, Role::Inputs, before, &declared.inputs)?;
    check_groups(alloc, scope, Role::Variables, before, &declared.outputs)?;
    check_runs(alloc, scope, before, &declared.runs)?;
    check_trace(alloc, scope, &declared.body)?;
    scope.forget_names(before);
    let types = NodeTypes::of_node(alloc, declared)?;
    scope.declare_node(&declared.name, types)
}

// That no macro of the text before has the macro's name.
#[tactic(auto, using(crate::proofs::Leading::leads, crate::proofs::Scopes::macro_parts))]
fn check_new_macro(scope: &Scope, declared: &MacroDecl) -> Result<(), TypeRefusal>
    ensures { Checks result (new_macro scope.now (macro declared.now)) }
{
    if scope.lookup(declared.name.text.as_str()).is_some() {
        return Err(TypeRefusal::Twice(declared.name.span));
    }
    Ok(())
}

// Whether a text has a node.
fn has_a_node(decls: &[Decl]) -> bool
    ensures { result ≡ has_node (map declaration decls.now) }
{
    for decl in decls {
        if let Decl::Node(_) = decl {
            return true;
        }
    }
    false
}
