//! Nests: nodes with those that they run.

ghost use Rattle.std.specs.Prelude.{◌≡◌, ◌≤◌, Err, Ok, IfErr, IfOk, Some, false, map, nat_le, true};
ghost use Rattle.lt_ast.specs.View.{declaration, program as declarations, run};
ghost use Rattle.lt_expand.specs.Nested.{most_runs, runs_in_nest};
ghost use Rattle.lt_expand.specs.Nesting.{IsNestingOf};
ghost use Rattle.lt_macros.specs.Answer.{asked_name};
ghost use Rattle.lt_num.specs.Bounds.{most_decimals};
ghost use Rattle.lt_expand.specs.Calls.{call_view};
ghost use Rattle.lt_frontend.specs.Nest.{Runs, IsNestAnswer, IsTextsNestAnswer, LeadsOn, runs_of, runs_with};
ghost use Rattle.lt_frontend.specs.Nest as nests;
ghost use Rattle.lt_frontend.specs.NestView.{nest, run_before};
ghost use Rattle.lt_frontend.specs.Prepared.{IfRefused};
ghost use Rattle.lt_frontend.specs.inner.Found.{HaveFewer, runs_in_declaration};
ghost use Rattle.lt_term.specs.SceneView.{scene};

use crate::refusal::{Refusal, Unprepared};
use lt_ast::{Decl, RunDecl};
use lt_expand::{Call, ExpandedNode, Nesting, expand_node};
use lt_formula::Table;
use lt_parser::parse;
use lt_parts::has_too_many_atoms;
use lt_term::Scenario;
use lt_types::{Typed, check};
use std::alloc::Global;

/// A node with those that it runs.
#[derive(Drop)]
pub struct Nest {
    /// Its scenario. Its inputs are its own, and then those that the runs give.
    pub scenario: Scenario,

    /// How many of the inputs are its own.
    pub own_inputs: usize,

    /// The runs, in order.
    pub runs: NestRuns,
}

/// Runs of nodes, in order.
#[cycle(nest)]
#[derive(Drop)]
pub struct NestRuns {
    /// The runs.
    pub items: Vec<NestRun>,
}

/// A run of a node.
#[cycle(nest)]
#[derive(Drop)]
pub struct NestRun {
    /// The expressions of the arguments.
    pub table: Table,

    /// The number of each argument in the table.
    pub arguments: Vec<u32>,

    /// The scenario of the node that is run.
    pub scenario: Scenario,

    /// How many of that node's inputs are its own.
    pub own_inputs: usize,

    /// What that node runs.
    pub runs: NestRuns,
}

/// The nest of the node of a text that is asked for, or of the first one where no name is given. A real has so many decimals, 0
/// to 6.
///
/// # Errors
///
/// The first cause: the text spells no program, the program isn't well typed, or a node of the nest is refused. A node that is
/// run comes before the one that runs it, and the nodes of its runs come in their order. [`Unprepared::Memory`] where memory ran
/// out, or the text has 2^32 bytes or more.
pub fn nest_of(
    alloc: Global,
    text: &[u8],
    decimals: u32,
    node: Option<&str>,
) -> Result<Nest, Unprepared>
    requires few { decimals ≤ most_decimals }
    ensures made { IfOk result (λ made.
        IsTextsNestAnswer decimals (asked_name node.entry) text.now (Ok (nest made))) }
    ensures refused { IfErr result (λ why. IfRefused why (λ reason.
        IsTextsNestAnswer decimals (asked_name node.entry) text.now (Err reason))) }
{
    let program = parse(alloc, text)?;
    let typed = check(alloc, program, decimals)?;
    let nesting = Nesting::new(alloc, &typed)?;
    match node {
        Some(name) => named_nest(alloc, &typed, &nesting, name),
        None => small_nest(alloc, &typed, &nesting, None),
    }
}

// The nest of the node of this name, or what is refused of it first.
fn named_nest(
    alloc: Global,
    typed: &Typed,
    nesting: &Nesting,
    node: &str,
) -> Result<Nest, Unprepared>
    requires { IsNestingOf (declarations typed.now.program) nesting.now }
    ensures made { IfOk result (λ made. IsNestAnswer typed.now.decimals
        (declarations typed.now.program) (Some node.now) (Ok (nest made))) }
    ensures refused { IfErr result (λ why. IfRefused why (λ reason.
        IsNestAnswer typed.now.decimals (declarations typed.now.program) (Some node.now)
        (Err reason))) }
{
    if nesting.has_few_runs(node) {
        return small_nest(alloc, typed, nesting, Some(node));
    }
    large_nest(alloc, typed, nesting, node)
}

// The runs of the node of this name, or none of the first node of a text.
fn runs_in<'a>(typed: &'a Typed, nesting: &Nesting, node: Option<&str>) -> &'a [RunDecl]
    requires { IsNestingOf (declarations typed.now.program) nesting.now }
    ensures runs { map run result.now ≡
        runs_of (asked_name node.entry) (declarations typed.now.program) }
    ensures fewer { HaveFewer (declarations typed.now.program) (asked_name node.entry)
        (map run result.now) }
{
    let program = typed.program();
    match node {
        Some(name) => match nesting.place(name) {
            Some(place) => runs_at(&program.decls, place),
            None => &[],
        },
        None => &[],
    }
}

// The runs of the node at a place of the declarations.
fn runs_at(decls: &[Decl], place: usize) -> &[RunDecl]
    ensures { map run result.now ≡ nests.runs_at (map declaration decls.now) place }
{
    match decls.get(place) {
        Some(decl) => runs_in_declaration(decl),
        None => &[],
    }
}

// The runs of a declaration: only a node has some.
fn runs_in_declaration(decl: &Decl) -> &[RunDecl]
    ensures { map run result.now ≡ runs_in_declaration (declaration decl.now) }
{
    match decl {
        Decl::Node(node) => node.runs.as_slice(),
        Decl::Macro(_) => &[],
        Decl::Exceptions(_) => &[],
    }
}

// A nest of no more runs than it may have, or what is refused of it first. Each node that is run has a nest of fewer runs.
#[cycle(nest_of)]
fn small_nest(
    alloc: Global,
    typed: &Typed,
    nesting: &Nesting,
    node: Option<&str>,
) -> Result<Nest, Unprepared>
    requires nesting { IsNestingOf (declarations typed.now.program) nesting.now }
    requires few { nat_le (runs_in_nest (asked_name node)
        (declarations typed.now.program)) most_runs ≡ true }
    ensures made { IfOk result (λ made. IsNestAnswer typed.now.decimals
        (declarations typed.now.program) (asked_name node.entry) (Ok (nest made))) }
    ensures refused { IfErr result (λ why. IfRefused why (λ reason.
        IsNestAnswer typed.now.decimals (declarations typed.now.program) (asked_name node.entry)
        (Err reason))) }
{
    let mut inner = Vec::new(alloc);
    for declared in runs_in(typed, nesting, node) {
        inner.push(small_nest(alloc, typed, nesting, Some(declared.node.text.as_str()))?)?;
    }
    let made = expand_node(alloc, typed, nesting, node)?;
    if has_too_many_atoms(alloc, &made.scenario)? {
        return Err(Unprepared::Refused(Refusal::TooManyAtoms));
    }
    put_together(alloc, made, inner)
}

// A node with the nests of the nodes that it runs.
fn put_together(alloc: Global, made: ExpandedNode, inner: Vec<Nest>) -> Result<Nest, Unprepared>
    ensures made { IfOk result (λ joined. nest joined ≡ record {
      scene = scene made.scenario;
      own_inputs = made.own_inputs;
      runs = runs_with (map call_view made.calls.items) (map nest inner.items);
    }) }
    ensures memory { IfErr result (λ why. why ≡ Unprepared.Memory) }
{
    let ExpandedNode {
        scenario,
        own_inputs,
        calls,
    } = made;
    let mut items = Vec::new(alloc);
    for (call, inner) in calls.into_iter().zip(inner) {
        items.push(put_run(call, inner))?;
    }
    Ok(Nest {
        scenario,
        own_inputs,
        runs: NestRuns { items },
    })
}

// A run, with the nest of the node that is run.
fn put_run(call: Call, inner: Nest) -> NestRun
    ensures { (rest : Runs) → run_before result rest ≡ nests.run (call_view call).arguments
        (nest inner).scene (nest inner).own_inputs (nest inner).runs rest }
{
    let Call {
        node: _,
        table,
        arguments,
    } = call;
    let Nest {
        scenario,
        own_inputs,
        runs,
    } = inner;
    NestRun {
        table,
        arguments,
        scenario,
        own_inputs,
        runs,
    }
}

// What is refused first of a nest of more runs than it may have. It goes down through such nests in a loop: of each the nodes
// that are run are judged in order, up to the first one whose nest has too many runs itself.
fn large_nest(
    alloc: Global,
    typed: &Typed,
    nesting: &Nesting,
    node: &str,
) -> Result<Nest, Unprepared>
    requires nesting { IsNestingOf (declarations typed.now.program) nesting.now }
    requires many { nat_le (runs_in_nest (Some node.now)
        (declarations typed.now.program)) most_runs ≡ false }
    ensures never { IfOk result (λ _. ⊥) }
    ensures refused { IfErr result (λ why. IfRefused why (λ reason.
        IsNestAnswer typed.now.decimals (declarations typed.now.program) (Some node.now)
        (Err reason))) }
{
    let mut at = node;
    while let Some(next) = first_large(alloc, typed, nesting, at)? {
        at = next;
    }
    match expand_node(alloc, typed, nesting, Some(at)) {
        Err(refusal) => Err(Unprepared::from(refusal)),
        Ok(_) => unreachable!(),
    }
}

// The first node that this one runs whose nest has too many runs, if there is one. Those before it are judged, and refused
// where one of them is.
fn first_large<'a>(
    alloc: Global,
    typed: &'a Typed,
    nesting: &Nesting,
    node: &str,
) -> Result<Option<&'a str>, Unprepared>
    requires { IsNestingOf (declarations typed.now.program) nesting.now }
    ensures found { IfOk result (λ found. LeadsOn typed.now.decimals
        (declarations typed.now.program)
        (runs_of (Some node.now) (declarations typed.now.program)) (asked_name found)) }
    ensures fewer { IfOk result (λ found. HaveFewer (declarations typed.now.program)
        (Some node.now) (runs_of (Some node.now) (declarations typed.now.program))) }
    ensures refused { IfErr result (λ why. IfRefused why (λ reason.
        IsNestAnswer typed.now.decimals (declarations typed.now.program) (Some node.now)
        (Err reason))) }
{
    for declared in runs_in(typed, nesting, Some(node)) {
        let name = declared.node.text.as_str();
        if !nesting.has_few_runs(name) {
            return Ok(Some(name));
        }
        drop(small_nest(alloc, typed, nesting, Some(name))?);
    }
    Ok(None)
}
