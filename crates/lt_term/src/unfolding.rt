//! The tree of what a term offers, from its root on, as far as it is asked for.

ghost use Rattle.std.specs.Prelude.{◌≡◌, ◌≤◌, ◌<◌, ◌+◌, suc, ◌∷◌, IsTrue, IfOk, List, OnOk, length};
ghost use Rattle.std.specs.List.{list_all};
ghost use Rattle.lt_num.specs.declared.kind.Kind.{Kind};
ghost use Rattle.lt_term.specs.Counted.{IsCounted};
ghost use Rattle.lt_term.specs.Offers.{offers_of};
ghost use Rattle.lt_term.specs.Tree.{leaf, raised, vanish};
ghost use Rattle.lt_term.specs.Unfolded.{branch_at, by_rule, going, under};
ghost use Rattle.lt_term.specs.View.{kinds_of, process};
ghost use Rattle.lt_term.specs.inner.Linked.{are_linked, are_made, is_made_before, is_sound};

use crate::instants::{Made, next_of, put_instant};
use crate::last::Last;
use crate::memory::Memory;
use crate::next::shared;
use crate::root::{Later, Offer, Parts, Root};
use crate::scenario::Scenario;
use crate::term::Term;
use crate::waiting::{Link, Waiting, put_scope};
use std::alloc::Global;
use std::rc::Rc;

/// How far a root is.
#[derive(Clone, Copy)]
enum Stage<'a> {
    /// A tree that is not unfolded yet.
    In(Later<'a>),

    /// A leaf of a part, and the number of the rule that makes something of it.
    Out(Offer, u32),

    /// The root.
    At(Root<'a>),
}

/// What is unfolded of the tree of a term: rules and instants by number, which only grow until the next term.
#[derive(Drop)]
pub struct Unfolding<'a> {
    rules: Vec<Link<'a>>,
    instants: Vec<Made<'a>>,

    // Numbers are those of earlier ones, and loops have done no more turns than they may.
    ghost linked: { IsTrue (are_linked 1 rules.items) },
    ghost made: { IsTrue (are_made 0 instants.items) },
    ghost sound: { IsTrue (list_all (λ l. is_sound (length instants.items) l.rule) rules.items) },
}

impl<'a> Unfolding<'a> {
    ghost use Rattle.lt_term.specs.UnfoldedView.{chain_at, instants_of, made_of, parts_count, rule_of};
    ghost use Rattle.lt_term.specs.UnfoldingView.{Grows, IsWithin, RootIsWithin, instant_in, instants_in, parts_of, root_of, rules_in, rules_of, scope_of, tree_of};
    ghost use Rattle.lt_term.specs.inner.Stages.{StageIsWithin, effort, effort_at, is_choice, rule_effort, stage_effort, tree_of_stage};

    /// Nothing yet.
    pub fn new(alloc: Global) -> Unfolding<'a>
        ensures rules { rules_in result ≡ 0 }
        ensures instants { instants_in result ≡ 0 }
    {
        Unfolding {
            rules: Vec::new(alloc),
            instants: Vec::new(alloc),
        }
    }

    /// The tree of a term. What was unfolded of another one is forgotten.
    pub fn of(&mut self, term: &'a Term) -> Later<'a>
        requires { IsCounted (process term.now) }
        ensures rules { rules_in self.new ≡ 0 }
        ensures instants { instants_in self.new ≡ 0 }
        ensures within { IsWithin self.new result }
        ensures tree { (kinds : List Kind) →
            tree_of kinds self.new result ≡ offers_of kinds (process term.now) }
    {
        self.rules.clear();
        self.instants.clear();
        Later {
            term: Some(term),
            rules: 0,
        }
    }

    /// The root of a tree.
    pub fn unfold(&mut self, tree: Later<'a>) -> Result<Root<'a>, Memory>
        requires { IsWithin self.old tree }
        ensures tree { IfOk result (λ root. (kinds : List Kind) →
            root_of kinds self.new root ≡ tree_of kinds self.old tree.entry) }
        ensures within { IfOk result (RootIsWithin self.new) }
        ensures grows { Grows self.old self.new }
    {
        let mut stage = Stage::In(tree);
        loop {
            stage = match stage {
                Stage::In(later) => self.go_in(later)?,
                Stage::Out(offer, rules) => self.hand_out(offer, rules)?,
                Stage::At(root) => return Ok(root),
            };
        }
    }

    /// A part of a choice, by number.
    pub fn part(&mut self, parts: Parts<'a>, rules: u32, number: usize) -> Result<Later<'a>, Memory>
        requires within { RootIsWithin self.old (Root.Choice parts rules) }
        requires number { number < parts_count parts }
        ensures tree { IfOk result (λ part. (kinds : List Kind) →
            tree_of kinds self.new part ≡
            branch_at (parts_of kinds self.old parts.entry rules) number) }
        ensures within { IfOk result (IsWithin self.new) }
        ensures grows { Grows self.old self.new }
    {
        match parts {
            Parts::Among(choices) => Ok(Later::of(&choices[number].1, rules)),
            Parts::Turns {
                counter,
                done,
                body,
            } => {
                if number > 0 {
                    return Ok(Later { term: None, rules });
                }
                let rule = Waiting::Again {
                    counter,
                    done,
                    body,
                };
                let inner = self.put_rule(rule, rules)?;
                Ok(Later::of(body, inner))
            }
        }
    }

    /// Writes the locals in scope of the weights of a choice over what is in a list, the outermost first.
    pub fn put_scope(&self, rules: u32, locals: &mut Vec<(u32, Last)>) -> Result<(), Memory>
        requires { rules ≤ rules_in self.now }
        ensures { OnOk result (locals.new.items ≡ scope_of self.now rules) }
    {
        put_scope(&self.rules, rules, locals)
    }

    /// Writes the constraints of an instant, and the locals in scope, over what is in two lists.
    pub fn put_instant(
        &self,
        instant: u32,
        constraints: &mut Vec<u32>,
        locals: &mut Vec<(u32, Last)>,
    ) -> Result<(), Memory>
        requires { instant < instants_in self.now }
        ensures constraints { OnOk result ((kinds : List Kind) →
            constraints.new.items ≡ (instant_in kinds self.now instant).constraints) }
        ensures locals { OnOk result ((kinds : List Kind) →
            locals.new.items ≡ (instant_in kinds self.now instant).locals) }
    {
        constraints.clear();
        locals.clear();
        put_instant(&self.instants, instant, constraints, locals)
    }

    /// What comes after an instant, in a scenario.
    pub fn next(&self, alloc: Global, scenario: &Scenario, instant: u32) -> Result<Rc<Term>, Memory>
        requires { instant < instants_in self.now }
        ensures { IfOk result (λ t. process t.value ≡
            (instant_in (kinds_of scenario.now.locals.items) self.now instant).next) }
    {
        let nothing = shared(alloc, Term::Eps)?;
        next_of(alloc, &scenario.locals, &self.instants, &nothing, instant)
    }

    // One step into a tree: to a part of its term, to a leaf, or to the root.
    fn go_in(&mut self, later: Later<'a>) -> Result<Stage<'a>, Memory>
        requires { IsWithin self.old later }
        ensures tree { IfOk result (λ stage. (kinds : List Kind) →
            tree_of_stage kinds self.new stage ≡ tree_of kinds self.old later.entry) }
        ensures within { IfOk result (StageIsWithin self.new) }
        ensures grows { Grows self.old self.new }
        ensures falls { IfOk result (λ stage. stage_effort self.new stage <
            stage_effort self.old (Stage.In later.entry)) }
    {
        let rules = later.rules;
        let Some(term) = later.term else {
            return Ok(Stage::Out(Offer::Vanish, rules));
        };
        match term {
            Term::Eps => Ok(Stage::Out(Offer::Vanish, rules)),
            Term::Dead => Ok(Stage::Out(Offer::Nothing, rules)),
            Term::Raise(exception) => Ok(Stage::Out(Offer::Raise(*exception), rules)),
            Term::Con(constraint) => self.make(Made::Con(*constraint), rules),
            Term::Seq(first, second) => self.go_under(first, Waiting::Seq(second), rules),
            Term::Par(first, second) => self.go_under(first, Waiting::Par(second), rules),
            Term::Assert(constraint, body) => {
                self.go_under(body, Waiting::Assert(*constraint), rules)
            }
            Term::Exist { local, last, body } => {
                let rule = Waiting::Exist {
                    local: *local,
                    last: *last,
                };
                self.go_under(body, rule, rules)
            }
            Term::Catch {
                exception,
                body,
                otherwise,
            } => {
                let rule = Waiting::Catch {
                    exception: *exception,
                    handler: otherwise,
                };
                self.go_under(body, rule, rules)
            }
            _ => self.choose(term, rules),
        }
    }

    // The root of a term that is a choice.
    fn choose(&mut self, term: &'a Term, rules: u32) -> Result<Stage<'a>, Memory>
        requires choice { IsTrue (is_choice (process term.now)) }
        requires counted { IsCounted (process term.now) }
        requires rules { rules ≤ rules_in self.old }
        ensures tree { IfOk result (λ stage. (kinds : List Kind) →
            tree_of_stage kinds self.new stage ≡
            under kinds (rules_of kinds self.old rules)
            (offers_of kinds (process term.now))) }
        ensures within { IfOk result (StageIsWithin self.new) }
        ensures grows { Grows self.old self.new }
        ensures ends { IfOk result (λ stage. stage_effort self.new stage ≡ 0) }
    {
        match term {
            Term::Loop(body) => {
                let inner = self.put_rule(Waiting::Turn(body), rules)?;
                let over = Later { term: None, rules };
                Ok(Stage::At(Root::Order(Later::of(body, inner), over)))
            }
            Term::Count {
                counter,
                done,
                body,
            } => {
                let parts = Parts::Turns {
                    counter: *counter,
                    done: *done,
                    body,
                };
                Ok(Stage::At(Root::Choice(parts, rules)))
            }
            Term::Any(parts) => Ok(Stage::At(Root::Choice(Parts::Among(parts), rules))),
            Term::Pri(first, second) => {
                let right = Later::of(second, rules);
                Ok(Stage::At(Root::Order(Later::of(first, rules), right)))
            }
            Term::Try { body, otherwise } => {
                let inner = self.put_rule(Waiting::Try(otherwise), rules)?;
                let right = Later::of(otherwise, rules);
                Ok(Stage::At(Root::Order(Later::of(body, inner), right)))
            }
            _ => Ok(Stage::Out(Offer::Vanish, rules)),
        }
    }

    // One step out of a part, with a leaf of it: the innermost rule makes something of it.
    fn hand_out(&mut self, offer: Offer, rules: u32) -> Result<Stage<'a>, Memory>
        requires { StageIsWithin self.old (Stage.Out offer rules) }
        ensures tree { IfOk result (λ stage. (kinds : List Kind) →
            tree_of_stage kinds self.new stage ≡
            tree_of_stage kinds self.old (Stage.Out offer rules)) }
        ensures within { IfOk result (StageIsWithin self.new) }
        ensures grows { Grows self.old self.new }
        ensures falls { IfOk result (λ stage. stage_effort self.new stage <
            stage_effort self.old (Stage.Out offer rules)) }
    {
        if rules == 0 {
            return Ok(Stage::At(Root::Leaf(offer)));
        }
        let Link { rule, outer } = self.rules[rules as usize - 1];
        match offer {
            Offer::Nothing => Ok(Stage::Out(Offer::Nothing, outer)),
            Offer::Vanish => Ok(self.vanish_by(rule, outer)),
            Offer::Raise(exception) => Ok(self.raise_by(exception, rule, outer)),
            Offer::Go(instant) => self.go_by(instant, rule, outer),
        }
    }

    // What a rule makes of a part that is over.
    fn vanish_by(&self, rule: Waiting<'a>, outer: u32) -> Stage<'a>
        requires rules { outer ≤ rules_in self.now }
        requires sound { IsTrue (is_sound (instants_in self.now) rule) }
        ensures tree { (kinds : List Kind) → tree_of_stage kinds self.now result ≡
            under kinds (rules_of kinds self.now outer)
            (by_rule kinds (rule_of (instant_in kinds self.now) rule.entry) vanish) }
        ensures within { StageIsWithin self.now result }
        ensures falls { stage_effort self.now result ≤
            rule_effort rule.entry + effort_at self.now outer }
    {
        match rule {
            Waiting::Seq(second) => Stage::In(Later::of(second, outer)),
            Waiting::Par(second) => Stage::In(Later::of(second, outer)),
            Waiting::Turn(_) | Waiting::Again { .. } => Stage::Out(Offer::Nothing, outer),
            Waiting::Joined(first) => Stage::Out(Offer::Go(first), outer),
            Waiting::Assert(_) | Waiting::Exist { .. } | Waiting::Catch { .. } | Waiting::Try(_) =>
                Stage::Out(Offer::Vanish, outer),
        }
    }

    // What a rule makes of a part that raises an exception.
    fn raise_by(&self, exception: u32, rule: Waiting<'a>, outer: u32) -> Stage<'a>
        requires rules { outer ≤ rules_in self.now }
        requires sound { IsTrue (is_sound (instants_in self.now) rule) }
        ensures tree { (kinds : List Kind) → tree_of_stage kinds self.now result ≡
            under kinds (rules_of kinds self.now outer)
            (by_rule kinds (rule_of (instant_in kinds self.now) rule.entry)
            (raised exception)) }
        ensures within { StageIsWithin self.now result }
        ensures falls { stage_effort self.now result ≤
            rule_effort rule.entry + effort_at self.now outer }
    {
        match rule {
            Waiting::Catch {
                exception: caught,
                handler,
            } if exception == caught => Stage::In(Later::of(handler, outer)),
            _ => Stage::Out(Offer::Raise(exception), outer),
        }
    }

    // What a rule makes of an instant of a part.
    fn go_by(&mut self, instant: u32, rule: Waiting<'a>, outer: u32) -> Result<Stage<'a>, Memory>
        requires rules { outer ≤ rules_in self.old }
        requires instant { instant < instants_in self.old }
        requires sound { IsTrue (is_sound (instants_in self.old) rule) }
        ensures tree { IfOk result (λ stage. (kinds : List Kind) →
            tree_of_stage kinds self.new stage ≡
            under kinds (rules_of kinds self.old outer)
            (by_rule kinds (rule_of (instant_in kinds self.old) rule.entry)
            (going (instant_in kinds self.old instant)))) }
        ensures within { IfOk result (StageIsWithin self.new) }
        ensures grows { Grows self.old self.new }
        ensures falls { IfOk result (λ stage. stage_effort self.new stage ≤
            rule_effort rule.entry + effort_at self.old outer) }
    {
        match rule {
            Waiting::Par(second) => self.go_under(second, Waiting::Joined(instant), outer),
            _ => {
                let made = Made::Under {
                    inner: instant,
                    rule,
                };
                self.make(made, outer)
            }
        }
    }

    // The tree of a part of a term, under one more rule.
    fn go_under(
        &mut self,
        part: &'a Rc<Term>,
        rule: Waiting<'a>,
        outer: u32,
    ) -> Result<Stage<'a>, Memory>
        requires counted { IsCounted (process part.now.value) }
        requires rules { outer ≤ rules_in self.old }
        requires sound { IsTrue (is_sound (instants_in self.old) rule) }
        ensures tree { IfOk result (λ stage. (kinds : List Kind) →
            tree_of_stage kinds self.new stage ≡
            under kinds (rule_of (instant_in kinds self.old) rule.entry ∷
            rules_of kinds self.old outer)
            (offers_of kinds (process part.now.value))) }
        ensures within { IfOk result (StageIsWithin self.new) }
        ensures grows { Grows self.old self.new }
        ensures effort { IfOk result (λ stage. stage_effort self.new stage ≡
            suc (effort (process part.now.value) +
            (rule_effort rule.entry + effort_at self.old outer))) }
    {
        let rules = self.put_rule(rule, outer)?;
        Ok(Stage::In(Later::of(part, rules)))
    }

    // One more instant, as a leaf.
    fn make(&mut self, made: Made<'a>, outer: u32) -> Result<Stage<'a>, Memory>
        requires rules { outer ≤ rules_in self.old }
        requires made { IsTrue (is_made_before (instants_in self.old) made) }
        ensures tree { IfOk result (λ stage. (kinds : List Kind) →
            tree_of_stage kinds self.new stage ≡
            under kinds (rules_of kinds self.old outer)
            (leaf (going (made_of kinds (instants_of kinds self.old.instants.items) made.entry)))) }
        ensures within { IfOk result (StageIsWithin self.new) }
        ensures grows { Grows self.old self.new }
        ensures effort { IfOk result (λ stage. stage_effort self.new stage ≡
            suc (effort_at self.old outer)) }
    {
        let number = self.put_made(made)?;
        Ok(Stage::Out(Offer::Go(number), outer))
    }

    // Puts a rule behind the others.
    fn put_rule(&mut self, rule: Waiting<'a>, outer: u32) -> Result<u32, Memory>
        requires rules { outer ≤ rules_in self.old }
        requires sound { IsTrue (is_sound (instants_in self.old) rule) }
        ensures chain { IfOk result (λ n. chain_at self.new.rules.items n ≡
            rule.entry ∷ chain_at self.old.rules.items outer) }
        ensures within { IfOk result (λ n. n ≤ rules_in self.new) }
        ensures instants { self.new.instants.items ≡ self.old.instants.items }
        ensures grows { Grows self.old self.new }
    {
        self.rules.push(Link { rule, outer })?;
        let Ok(number) = u32::try_from(self.rules.len()) else {
            return Err(Memory);
        };
        Ok(number)
    }

    // Puts an instant behind the others.
    fn put_made(&mut self, made: Made<'a>) -> Result<u32, Memory>
        requires { IsTrue (is_made_before (instants_in self.old) made) }
        ensures instant { IfOk result (λ n. (kinds : List Kind) →
            instant_in kinds self.new n ≡
            made_of kinds (instants_of kinds self.old.instants.items) made.entry) }
        ensures within { IfOk result (λ n. n < instants_in self.new) }
        ensures rules { self.new.rules.items ≡ self.old.rules.items }
        ensures grows { Grows self.old self.new }
    {
        let Ok(number) = u32::try_from(self.instants.len()) else {
            return Err(Memory);
        };
        self.instants.push(made)?;
        Ok(number)
    }
}
