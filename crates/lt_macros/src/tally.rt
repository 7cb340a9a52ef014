//! The figures of a node that limits are set for.

ghost use Rattle.std.specs.Prelude.{◌≡◌, ◌+◌, IfOk};
ghost use Rattle.lt_macros.specs.inner.Figures.{Figure, choice_weight, expression_weight, limit_by, local_weight, one_if, term_weight};
ghost use Rattle.lt_macros.specs.inner.Tallies.{counted};

use crate::limit::Limit;
use lt_formula::Memory;

/// The most terms and nodes of expressions that there may be.
pub(crate) const MOST_NODES: u32 = 100_000;

/// How deep terms may stand in one another.
pub(crate) const MOST_TERM_DEPTH: u32 = 1000;

/// How deep an expression may be.
pub(crate) const MOST_EXPRESSION_DEPTH: u32 = 5000;

/// The most alternatives that a choice may have.
const MOST_ALTERNATIVES: usize = 64;

/// The most inputs that there may be, and the most outputs and locals together.
const MOST_VARIABLES: u64 = 128;

/// How much there is of what limits are set for.
#[derive(Clone, Copy)]
pub(crate) struct Tally {
    /// Terms, and nodes of expressions.
    pub(crate) nodes: u32,

    /// Terms that stand deeper than they may.
    pub(crate) deep_terms: u32,

    /// Nodes of expressions that do.
    pub(crate) deep_expressions: u32,

    /// Choices that have more alternatives than they may.
    pub(crate) wide_choices: u32,

    /// Locals.
    pub(crate) locals: u32,
}

// 1 where it is so.
fn one_if(holds: bool) -> u32
    ensures { result ≡ one_if holds }
{
    if holds { 1 } else { 0 }
}

// How much there is where so much is added. No text that fits in memory has too much.
fn plus(number: u32, more: u32) -> Result<u32, Memory>
    ensures { IfOk result (λ sum. sum ≡ number + more) }
{
    number.checked_add(more).ok_or(Memory)
}

// One deeper. No text that fits in memory is too deep.
pub(crate) fn deeper(depth: u32) -> Result<u32, Memory>
    ensures { IfOk result (λ below. below ≡ depth + 1) }
{
    depth.checked_add(1).ok_or(Memory)
}

impl Tally {
    // Nothing yet.
    pub(crate) fn start() -> Tally
        ensures { (f : Figure) → counted result f ≡ 0 }
    {
        Tally {
            nodes: 0,
            deep_terms: 0,
            deep_expressions: 0,
            wide_choices: 0,
            locals: 0,
        }
    }

    // One more term, which stands so deep.
    pub(crate) fn with_term(self, depth: u32) -> Result<Tally, Memory>
        ensures { IfOk result (λ t. (f : Figure) →
            counted t f ≡ counted self f + term_weight f depth) }
    {
        Ok(Tally {
            nodes: plus(self.nodes, 1)?,
            deep_terms: plus(self.deep_terms, one_if(depth > MOST_TERM_DEPTH))?,
            ..self
        })
    }

    // One more node of an expression, which stands so deep.
    pub(crate) fn with_expression(self, depth: u32) -> Result<Tally, Memory>
        ensures { IfOk result (λ t. (f : Figure) →
            counted t f ≡ counted self f + expression_weight f depth) }
    {
        let deep = one_if(depth > MOST_EXPRESSION_DEPTH);
        Ok(Tally {
            nodes: plus(self.nodes, 1)?,
            deep_expressions: plus(self.deep_expressions, deep)?,
            ..self
        })
    }

    // What a choice of so many alternatives adds to its term.
    pub(crate) fn with_choice(self, alternatives: usize) -> Result<Tally, Memory>
        ensures { IfOk result (λ t. (f : Figure) →
            counted t f ≡ counted self f + choice_weight f alternatives) }
    {
        let wide = one_if(alternatives > MOST_ALTERNATIVES);
        Ok(Tally {
            wide_choices: plus(self.wide_choices, wide)?,
            ..self
        })
    }

    // What a local adds to its term.
    pub(crate) fn with_local(self) -> Result<Tally, Memory>
        ensures { IfOk result (λ t. (f : Figure) → counted t f ≡ counted self f + local_weight f) }
    {
        Ok(Tally {
            locals: plus(self.locals, 1)?,
            ..self
        })
    }

    // The first limit that a node is past, where there is no more in it, and so many inputs and outputs.
    pub(crate) fn limit(self, inputs: u32, outputs: u32) -> Option<Limit>
        ensures { result ≡ limit_by (counted self) inputs outputs }
    {
        if self.nodes > MOST_NODES {
            return Some(Limit::Nodes);
        }
        if self.deep_terms > 0 || self.deep_expressions > 0 {
            return Some(Limit::Depth);
        }
        if self.wide_choices > 0 {
            return Some(Limit::Children);
        }
        let drawn = u64::from(outputs) + u64::from(self.locals);
        if u64::from(inputs) > MOST_VARIABLES || drawn > MOST_VARIABLES {
            return Some(Limit::Variables);
        }
        None
    }
}
