//! The policies under which a load is tried.

ghost use Rattle.std.specs.Prelude.{◌≡◌, ◌⊎◌, Some, None, IfOk, IfErr, map};
ghost use Rattle.pc_load.specs.Variants.{choice_in, choice_of, or_plain, variant_fault};
ghost use Rattle.pc_load.specs.declared.variant.VariantFault.TheVariants.{OutOfMemory};

mod drafts;
mod words;

use drafts::variants_of;
use pc_policy::PolicyName;
use std::alloc::{AllocError, Global};
use std::marker::Model;
use thiserror::Error;

/// The most variants.
pub const MOST_VARIANTS: usize = 16;

/// The most letters of a variant's name.
pub const MOST_NAME: usize = 24;

/// The most CPUs of a group.
pub const MOST_GROUP: u8 = 64;

/// A policy, and what the lab does by itself (own). Ticks are those of the load.
#[derive(Debug, Drop)]
pub struct Variant {
    /// Its title: 1 to 24 of `a-z 0-9 . -`.
    pub name: Vec<u8>,
    /// The order of run lists, and what a steal takes.
    pub policy: PolicyName,
    /// After so many ticks a thread may be preempted; 0: never.
    pub quantum: u32,
    /// So many CPUs side by side hear of each other and steal from each other: 1 to 64.
    pub group: u8,
    /// Ticks from a publish until others can take the delta in.
    pub delay: u32,
    /// Ticks that an agent's turn takes on its CPU.
    pub cost: u32,
    /// Whether who runs is preempted for one that stands before it.
    pub urgent: bool,
    /// Whether recorded preempts are kept.
    pub keep: bool,
}

/// A variant as it is asked for, in the words and numbers of a text (own).
#[derive(Clone, Copy, Debug)]
pub struct VariantDraft<'a> {
    /// Its title.
    pub name: &'a str,
    /// The order of run lists: its word, or `rank` and an expression.
    pub order: &'a str,
    /// The word for what a steal takes.
    pub steals: &'a str,
    /// After so many ticks a thread may be preempted.
    pub quantum: i64,
    /// So many CPUs side by side hear of each other.
    pub group: i64,
    /// Ticks from a publish until others can take the delta in.
    pub delay: i64,
    /// Ticks that an agent's turn takes on its CPU.
    pub cost: i64,
    /// Whether who runs is preempted for one that stands before it.
    pub urgent: bool,
    /// Whether recorded preempts are kept.
    pub keep: bool,
}

impl VariantDraft<'_> {
    /// What is asked for where nothing is said: the variant of all defaults.
    pub const PLAIN: VariantDraft<'static> = VariantDraft {
        name: "plain",
        order: "levels",
        steals: "least",
        quantum: 0,
        group: MOST_GROUP as i64,
        delay: 0,
        cost: 0,
        urgent: false,
        keep: false,
    };
}

/// Why variants cannot be tried.
#[derive(Clone, Copy, Debug, PartialEq, Eq, Error)]
pub enum VariantFault {
    /// There are at most 16.
    #[error("there are at most 16 variants")]
    TooMany,
    /// The one with this place has a value out of its range, or the name of one before it.
    #[error("variant {0} is none")]
    Bad(usize),
    /// A growth was refused.
    #[error("out of memory")]
    OutOfMemory,
}

/// Want of memory comes in by this alone: std has two types for it.
impl<E: Into<AllocError> + Drop> From<E> for VariantFault {
    ghost use Rattle.std.specs.Prelude.{◌≡◌};
    ghost use Rattle.pc_load.specs.declared.variant.VariantFault.TheVariants.{OutOfMemory};

    ghost from_gives = { λ _ fault. fault ≡ OutOfMemory };

    fn from(_error: E) -> VariantFault {
        VariantFault::OutOfMemory
    }
}

/// The variants under which a load is tried, at least one (own).
#[derive(Debug, Drop)]
pub struct Variants {
    variants: Vec<Variant>,
}

impl Model for Variants {
    ghost use Rattle.std.specs.Prelude.{◌≡◌, None, List, map};
    ghost use Rattle.pc_load.specs.Variants.{Choice, choice_of, variant_fault};
    ghost use Rattle.pc_rank.specs.contracts.expression.Expression as expression;
    ghost use Rattle.std.specs.Coded.{codes};

    ghost Value = { List Choice };

    ghost coded = { Prim.hlevel (codes, expression.the_row.coded) };

    ghost view = { λ all. map choice_of all.variants.items };

    ghost invariant = { λ all. variant_fault (map choice_of all.variants.items) ≡ None };
}

impl Variants {
    /// The variants that are asked for, in their order; where none is, one of all defaults with the name `plain`.
    pub fn new(alloc: Global, drafts: &[VariantDraft<'_>]) -> Result<Variants, VariantFault>
        ensures ok { IfOk result (λ _. variant_fault (map choice_in drafts.now) ≡ None) }
        ensures keeps { IfOk result (λ variants. variants ≡ or_plain (map choice_in drafts.now)) }
        ensures answers { IfErr result (λ fault.
            (variant_fault (map choice_in drafts.now) ≡ Some fault) ⊎ (fault ≡ OutOfMemory)) }
    {
        if drafts.len() > MOST_VARIANTS {
            return Err(VariantFault::TooMany);
        }
        let variants = if drafts.is_empty() {
            variants_of(alloc, &[VariantDraft::PLAIN])?
        } else {
            variants_of(alloc, drafts)?
        };
        Ok(Variants { variants })
    }

    /// The variants in their order.
    pub fn as_slice(&self) -> &[Variant]
        ensures { map choice_of result.now ≡ self.now }
    {
        self.variants.as_slice()
    }
}
