//! What a thread view takes in as it is, with no view made of it: one message, and the first messages as a state.

ghost use Rattle.std.specs.Prelude.{◌*◌, ◌≤◌};
ghost use Rattle.pc_messages.specs.declared.message.TheConstants.{GREATEST_NUMBER};
ghost use Rattle.pc_messages.specs.declared.kind.TheConstants.{MOST_TICKS};
ghost use Rattle.pc_messages.specs.Run.{IsWellFormed};
ghost use Rattle.pc_thread_view.specs.Told.{told_by_message, told_by_prefix};

use crate::view::ThreadView;
use pc_join::{OutOfMemory, Piece};
use pc_messages::{Kind, Reported};
use std::alloc::Global;

/// One message of a thread.
#[derive(Clone, Copy)]
pub struct OneMessage {
    pub number: u32,
    pub kind: Kind,
    ghost well_formed: { IsWellFormed number kind },
}

/// All messages of a thread up to a number, as the state that they report.
#[derive(Clone, Copy)]
pub struct FoldedPrefix {
    pub upto: u32,
    pub reported: Reported,
    ghost positive: { 1 ≤ upto },
    ghost fits: { upto ≤ GREATEST_NUMBER },
    ghost ran: { reported.ran ≤ upto * MOST_TICKS },
}

impl Piece<ThreadView> for OneMessage {
    ghost stands_for = { λ piece. told_by_message piece.number piece.kind };

    #[inline(always)]
    fn alone(self, alloc: Global) -> ThreadView {
        ThreadView::of(alloc, self.number, self.kind)
    }

    #[inline(always)]
    fn join_to(self, value: &mut ThreadView) -> Result<(), OutOfMemory> {
        value.insert(self.number, self.kind)
    }
}

impl Piece<ThreadView> for FoldedPrefix {
    ghost stands_for = { λ piece. told_by_prefix piece.upto piece.reported };

    #[inline(always)]
    fn alone(self, alloc: Global) -> ThreadView {
        ThreadView::folded(alloc, self.upto, self.reported)
    }

    #[inline(always)]
    fn join_to(self, value: &mut ThreadView) -> Result<(), OutOfMemory> {
        value.take_prefix(self.upto, self.reported);
        Ok(())
    }
}
