//! What a term offers in one instant.

ghost use Rattle.std.specs.Prelude.{◌≡◌, ◌≤◌, ℕ, IsTrue, ◌++◌, suc, [], ◌∷◌, map, All, IfOk, OnOk};
ghost use Rattle.std.specs.List.{flat_map, list_all};
ghost use Rattle.lt_formula.specs.Expression.{Expression};
ghost use Rattle.lt_term.specs.Counted.{IsCounted};
ghost use Rattle.lt_formula.specs.Limits.{most_turns};
ghost use Rattle.lt_term.specs.Mapped.{node_passes, node_with_constraints};
ghost use Rattle.lt_term.specs.Offers.{in_catch, in_par, in_seq, in_turn, offers_of};
ghost use Rattle.lt_term.specs.Process.{count, eps, loop, with_constraints};
ghost use Rattle.lt_term.specs.Replaced.{replaced};
ghost use Rattle.lt_term.specs.Tree.{expression, flattened, go, leaf_node, more, ordered_node, stop, vanish, weighted_node};
ghost use Rattle.lt_term.specs.TreeView.{tree_nodes, weight};
ghost use Rattle.lt_term.specs.View.{kinds_of, process};
ghost use Rattle.lt_term.specs.Within.{Tests, passes};

use crate::memory::Memory;
use crate::next::{caught, sequence, shared};
use crate::rules::{put, put_assert, put_exist, put_joined, put_try, put_turn, start_of};
use crate::scenario::Scenario;
use crate::term::Term;
use crate::tree::{Tree, TreeNode, Weight};
use crate::variable::Var;
use std::alloc::{AllocError, Global};
use std::rc::Rc;

/// What a term of a scenario offers.
#[tactic(auto, using(crate::proofs::Natural::nodes_natural, crate::proofs::Passing::nodes_pass))]
pub fn offers(alloc: Global, scenario: &Scenario, term: &Term) -> Result<Tree, Memory>
    requires { IsCounted (process term.now) }
    // The tree of the rules, with the numbers of the constraints ..
    ensures numbers { IfOk result (λ t. tree_nodes t.nodes.items ≡
        flattened (offers_of (kinds_of scenario.now.locals.items) (process term.now))) }
    // .. and so with whatever these numbers stand for.
    ensures expressions { IfOk result (λ t. (meaning : ℕ → Expression) →
        map (node_with_constraints meaning) (tree_nodes t.nodes.items) ≡
        flattened (offers_of (kinds_of scenario.now.locals.items)
        (with_constraints meaning (process term.now)))) }
    // Its numbers are those of the term.
    ensures passes { IfOk result (λ t. (tests : Tests ℕ) →
        IsTrue (passes tests (process term.now)) →
        IsTrue (list_all (node_passes tests) (tree_nodes t.nodes.items))) }
{
    let nodes = nodes_of(alloc, &scenario.locals, term)?;
    Ok(Tree { nodes })
}

// The nodes of a term.
#[cycle(emit)]
fn nodes_of(alloc: Global, locals: &[Var], term: &Term) -> Result<Vec<TreeNode>, AllocError>
    requires { IsCounted (process term.now) }
    ensures { IfOk result (λ nodes. tree_nodes nodes.items ≡
        flattened (offers_of (kinds_of locals.now) (process term.now))) }
{
    let mut nodes = Vec::new(alloc);
    emit(alloc, locals, &mut nodes, term)?;
    Ok(nodes)
}

// Puts the nodes of a term at the end of a list.
#[cycle(emit)]
fn emit(
    alloc: Global,
    locals: &[Var],
    out: &mut Vec<TreeNode>,
    term: &Term,
) -> Result<(), AllocError>
    requires { IsCounted (process term.now) }
    ensures { OnOk result (tree_nodes out.new.items ≡ tree_nodes out.old.items ++
        flattened (offers_of (kinds_of locals.now) (process term.now))) }
{
    match term {
        Term::Eps => put(out, TreeNode::Vanish),
        Term::Dead => put(out, TreeNode::None),
        Term::Con(constraint) => put_instant(alloc, out, *constraint),
        Term::Raise(exception) => put(out, TreeNode::Raise(*exception)),
        Term::Seq(first, second) => {
            let nodes = nodes_of(alloc, locals, first)?;
            put_seq(alloc, locals, out, nodes, second)
        }
        Term::Loop(body) => {
            let nodes = nodes_of(alloc, locals, body)?;
            put_loop(alloc, out, nodes, body)
        }
        Term::Count {
            counter,
            done,
            body,
        } => {
            let nodes = nodes_of(alloc, locals, body)?;
            put_counted(alloc, out, nodes, *counter, *done, body)
        }
        Term::Any(parts) => {
            put_choice(alloc, out, parts)?;
            emit_parts(alloc, locals, out, parts)
        }
        Term::Pri(first, second) => {
            put(out, TreeNode::Pri)?;
            emit(alloc, locals, out, first)?;
            emit(alloc, locals, out, second)
        }
        Term::Par(first, second) => {
            let first_nodes = nodes_of(alloc, locals, first)?;
            put_par(alloc, locals, out, first_nodes, second)
        }
        Term::Assert(constraint, body) => {
            let nodes = nodes_of(alloc, locals, body)?;
            put_assert(alloc, out, nodes, *constraint)
        }
        Term::Exist { local, last, body } => {
            let nodes = nodes_of(alloc, locals, body)?;
            let start = start_of(locals, *local);
            put_exist(alloc, out, nodes, start, *local, *last)
        }
        Term::Catch {
            exception,
            body,
            otherwise,
        } => {
            let nodes = nodes_of(alloc, locals, body)?;
            put_catch(alloc, locals, out, nodes, *exception, otherwise)
        }
        Term::Try { body, otherwise } => {
            put(out, TreeNode::Pri)?;
            let nodes = nodes_of(alloc, locals, body)?;
            put_try(alloc, out, nodes, otherwise)?;
            emit(alloc, locals, out, otherwise)
        }
    }
}

// The nodes of the parts of a choice.
#[cycle(emit)]
fn emit_parts(
    alloc: Global,
    locals: &[Var],
    out: &mut Vec<TreeNode>,
    parts: &Vec<(u32, Term)>,
) -> Result<(), AllocError>
    requires counted { All (λ p. IsCounted (process p.1)) parts.now.items }
    ensures { OnOk result (tree_nodes out.new.items ≡ tree_nodes out.old.items ++
        flat_map (λ p. flattened (offers_of (kinds_of locals.now) (process p.1))) parts.now.items) }
{
    for (_, part) in parts {
        emit(alloc, locals, out, part)?;
    }
    Ok(())
}

// The node of one instant in which an expression holds, and after which there is nothing.
fn put_instant(alloc: Global, out: &mut Vec<TreeNode>, constraint: u32) -> Result<(), AllocError>
    ensures { OnOk result (tree_nodes out.new.items ≡ tree_nodes out.old.items ++
        leaf_node (go (constraint ∷ []) [] eps) ∷ []) }
{
    let next = shared(alloc, Term::Eps)?;
    let constraints = vec![in alloc; constraint]?;
    let lasts = Vec::new(alloc);
    put(
        out,
        TreeNode::Go {
            constraints,
            lasts,
            next,
        },
    )
}

// The root of a choice.
fn put_choice(
    alloc: Global,
    out: &mut Vec<TreeNode>,
    parts: &Vec<(u32, Term)>,
) -> Result<(), AllocError>
    ensures { OnOk result (tree_nodes out.new.items ≡ tree_nodes out.old.items ++
        weighted_node [] (map (λ p. expression p.0) parts.now.items) ∷ []) }
{
    let weights = weights_of(alloc, parts)?;
    let lasts = Vec::new(alloc);
    put(out, TreeNode::Any { weights, lasts })
}

// The weights of the parts of a choice.
fn weights_of(alloc: Global, parts: &Vec<(u32, Term)>) -> Result<Vec<Weight>, AllocError>
    ensures { IfOk result (λ ws. map weight ws.items ≡ map (λ p. expression p.0) parts.now.items) }
{
    let mut weights = Vec::new(alloc);
    for (number, _) in parts {
        weights.push(Weight::Exp(*number))?;
    }
    Ok(weights)
}

// The nodes of a loop, by those of its part: one more turn, or the end.
fn put_loop(
    alloc: Global,
    out: &mut Vec<TreeNode>,
    nodes: Vec<TreeNode>,
    body: &Rc<Term>,
) -> Result<(), AllocError>
    ensures { OnOk result (tree_nodes out.new.items ≡ tree_nodes out.old.items ++ ordered_node ∷
        (flat_map (replaced (in_turn (loop (process body.now.value)))) (tree_nodes nodes.items) ++
        leaf_node vanish ∷ [])) }
{
    put(out, TreeNode::Pri)?;
    let again = once_more(alloc, body)?;
    put_turn(alloc, out, nodes, &again)?;
    put(out, TreeNode::Vanish)
}

// The nodes of a counted loop, by those of its part: one more turn, or the end.
fn put_counted(
    alloc: Global,
    out: &mut Vec<TreeNode>,
    nodes: Vec<TreeNode>,
    counter: u32,
    done: u64,
    body: &Rc<Term>,
) -> Result<(), AllocError>
    requires { done ≤ most_turns }
    ensures { OnOk result (tree_nodes out.new.items ≡ tree_nodes out.old.items ++
        weighted_node [] (more counter done ∷ stop counter done ∷ []) ∷
        (flat_map (replaced (in_turn (count counter (suc done) (process body.now.value))))
        (tree_nodes nodes.items) ++ leaf_node vanish ∷ [])) }
{
    put_count(alloc, out, counter, done)?;
    let again = one_more_done(alloc, counter, done, body)?;
    put_turn(alloc, out, nodes, &again)?;
    put(out, TreeNode::Vanish)
}

// The root of a counted loop: one more turn, or the end.
fn put_count(
    alloc: Global,
    out: &mut Vec<TreeNode>,
    counter: u32,
    done: u64,
) -> Result<(), AllocError>
    ensures { OnOk result (tree_nodes out.new.items ≡ tree_nodes out.old.items ++
        weighted_node [] (more counter done ∷ stop counter done ∷ []) ∷ []) }
{
    let mut weights = Vec::new(alloc);
    weights.push(Weight::More { counter, done })?;
    weights.push(Weight::Stop { counter, done })?;
    let lasts = Vec::new(alloc);
    put(out, TreeNode::Any { weights, lasts })
}

/// A loop that begins again.
pub(crate) fn once_more(alloc: Global, body: &Rc<Term>) -> Result<Rc<Term>, AllocError>
    ensures { IfOk result (λ t. process t.value ≡ loop (process body.now.value)) }
{
    let again = Term::Loop(body.clone()?);
    shared(alloc, again)
}

/// A counted loop of which one more turn is done.
pub(crate) fn one_more_done(
    alloc: Global,
    counter: u32,
    done: u64,
    body: &Rc<Term>,
) -> Result<Rc<Term>, AllocError>
    requires { done ≤ most_turns }
    ensures { IfOk result (λ t. process t.value ≡
        count counter (suc done) (process body.now.value)) }
{
    let again = Term::Count {
        counter,
        done: done + 1,
        body: body.clone()?,
    };
    shared(alloc, again)
}

// The nodes of a first part for a sequence: those of the second part where the first is over.
#[cycle(emit)]
fn put_seq(
    alloc: Global,
    locals: &[Var],
    out: &mut Vec<TreeNode>,
    nodes: Vec<TreeNode>,
    second: &Rc<Term>,
) -> Result<(), AllocError>
    requires { IsCounted (process second.now.value) }
    ensures { OnOk result (tree_nodes out.new.items ≡ tree_nodes out.old.items ++
        flat_map (replaced
        (in_seq (process second.now.value)
        (offers_of (kinds_of locals.now) (process second.now.value)))) (tree_nodes nodes.items)) }
{
    for node in nodes {
        match node {
            TreeNode::Vanish => emit(alloc, locals, out, second)?,
            TreeNode::Go {
                constraints,
                lasts,
                next,
            } => {
                let next = sequence(alloc, next, second)?;
                put(
                    out,
                    TreeNode::Go {
                        constraints,
                        lasts,
                        next,
                    },
                )?
            }
            other => put(out, other)?,
        }
    }
    Ok(())
}

// The nodes of a first side for two at once: those of the second side where the first takes part in an
// instant or is over, and so anew for each such leaf.
#[cycle(emit)]
fn put_par(
    alloc: Global,
    locals: &[Var],
    out: &mut Vec<TreeNode>,
    nodes: Vec<TreeNode>,
    second: &Term,
) -> Result<(), AllocError>
    requires { IsCounted (process second.now) }
    ensures { OnOk result (tree_nodes out.new.items ≡ tree_nodes out.old.items ++
        flat_map (replaced (in_par (offers_of (kinds_of locals.now) (process second.now))))
        (tree_nodes nodes.items)) }
{
    for node in nodes {
        match node {
            TreeNode::Vanish => emit(alloc, locals, out, second)?,
            TreeNode::Go {
                constraints,
                lasts,
                next,
            } => {
                let others = nodes_of(alloc, locals, second)?;
                put_joined(alloc, out, &constraints, &lasts, &next, others)?
            }
            other => put(out, other)?,
        }
    }
    Ok(())
}

// The nodes of a part with a handler: those of the handler where the part raises its exception.
#[cycle(emit)]
fn put_catch(
    alloc: Global,
    locals: &[Var],
    out: &mut Vec<TreeNode>,
    nodes: Vec<TreeNode>,
    exception: u32,
    handler: &Rc<Term>,
) -> Result<(), AllocError>
    requires { IsCounted (process handler.now.value) }
    ensures { OnOk result (tree_nodes out.new.items ≡ tree_nodes out.old.items ++
        flat_map (replaced
        (in_catch exception (process handler.now.value)
        (offers_of (kinds_of locals.now) (process handler.now.value)))) (tree_nodes nodes.items)) }
{
    for node in nodes {
        match node {
            TreeNode::Raise(raised) if raised == exception => emit(alloc, locals, out, handler)?,
            TreeNode::Go {
                constraints,
                lasts,
                next,
            } => {
                let next = caught(alloc, exception, next, handler)?;
                put(
                    out,
                    TreeNode::Go {
                        constraints,
                        lasts,
                        next,
                    },
                )?
            }
            other => put(out, other)?,
        }
    }
    Ok(())
}
