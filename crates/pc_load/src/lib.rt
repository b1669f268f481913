//! Loads of the lab: what threads need, and the policies under which it is tried.
//!
//! A [`Load`] says of each thread when it comes, for how long it runs and sleeps, and at which level. A [`Variant`] is
//! a policy with what the lab does by itself: quanta, late news, turns that take time.
//!
//! What the numbers of a text may be, and who may die when, settings of a run ask here, too.
#![tactic(auto)]

mod joining;
mod load;
mod variant;

pub use load::{
    LAST_TICK, Load, LoadFault, LoadStep, MOST_LEVEL, MOST_STEPS, ThreadDraft, ThreadLoad,
    count_of_cpus, dies_last, is_cpu, is_mask,
};
pub use variant::{
    MOST_GROUP, MOST_NAME, MOST_VARIANTS, Variant, VariantDraft, VariantFault, Variants,
};
