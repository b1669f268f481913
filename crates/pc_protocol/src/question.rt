//! What an agent knows, by which it asks the others.

ghost use Rattle.std.specs.Prelude.{IfOk};
ghost use Rattle.pc_join.specs.Sets.{IsSameSet};
ghost use Rattle.pc_delta.specs.Digests.{set_of_digest};
ghost use Rattle.pc_view.specs.Views.{pairs_of};
ghost use Rattle.pc_protocol.specs.Listing.{IsListed};

use pc_delta::Digest;
use pc_join::OutOfMemory;
use pc_view::View;
use std::alloc::Global;

/// What an agent knows, by which it asks for the rest (own).
#[derive(Drop)]
pub(crate) struct Question {
    pub(crate) digest: Digest,
    ghost listed: { ∥ IsListed (set_of_digest digest) ∥₁ },
}

/// Asks by what this view knows.
pub(crate) fn question_of(alloc: Global, view: &View) -> Result<Question, OutOfMemory>
    requires { IsListed (pairs_of view.now) }
    ensures { IfOk result (λ question. IsSameSet (set_of_digest question.digest) (pairs_of view.now)) }
{
    let digest = Digest::of(alloc, view)?;
    Ok(Question { digest })
}
