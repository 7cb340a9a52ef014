//! The work that a search may need, as a number that is known before it.
//!
//! A need is the product of what makes a search long, and of nothing else: how many variables are in scope, how many
//! points the hard ones have, and three ways for each choice that the conjuncts leave. [`measure`] finds it for a gate
//! of a [`Circuit`](lt_space::Circuit), and which variables are hard, in a [`NeedScratch`] that was made before. It takes no
//! memory.
//!
//! No formula is built. Each gate has a face, which says what is left of it once truths are absorbed: a truth, or
//! what a gate stands for, as it is or denied. By the faces the gates that a gate comes down to are gathered, each
//! once: those of the whole, and those of each conjunct. The different atoms of one conjunct are compared with each
//! other, and else an atom only with the first ones that have its variables. So the time grows with the gates and
//! terms of the whole and of each conjunct, and with the square of the different atoms of each.
//!
//! `specs/Need.antt` says what a need is.
#![tactic(auto)]

mod choices;
mod conjuncts;
mod counts;
mod faces;
mod gathering;
mod hard;
mod measuring;
mod need_scratch;
mod product;
mod uses;

pub use measuring::measure;
pub use need_scratch::NeedScratch;
