//! The search: what would make a refused line accepted is found out by trying.
//!
//! As long as the line would be refused, some deed is done that it cannot do without, in the world as it will be once
//! the deeds before are done ([`Ahead`]). What the line and each deed lack, `lacks.rt`, `calls.rt` and `agents.rt` say.
//! Nothing takes memory: a plan has room for so many steps.

ghost use Rattle.pc_advice.specs.Advices.{IsFor};
ghost use Rattle.pc_advice.specs.Behind.{kernel_of};

use crate::ahead::Ahead;
use crate::deed::Deed;
use crate::lacks::{Goal, Lack};
use crate::plan::Plan;
use pc_policy::PolicyName;
use pc_world::World;

/// The most deeds that lead to each other before one of them can be done.
const MOST_DEPTH: usize = 8;

/// What would make a refused line accepted.
#[derive(Drop)]
pub enum Advice {
    /// These steps, of which the last is the line itself.
    Steps(Plan),
    /// No agent can, and what the environment would have to do is not told.
    NoAgent,
    /// Nothing does.
    Never,
    /// It was not looked for.
    Unsought,
}

/// What is to be done next.
#[derive(Drop)]
enum Move {
    /// The line itself, which is accepted.
    Line,
    /// This deed, which is accepted.
    Deed(Goal),
    /// Nothing: it is [`Advice::NoAgent`].
    NoAgent,
    /// Nothing: it is [`Advice::Never`].
    Never,
    /// Nothing: it is [`Advice::Unsought`].
    Unsought,
}

/// What can be done next for the line to be accepted. Where there was a choice it is noted.
fn next_move(ahead: &Ahead<'_>, line: &Goal, chosen: &mut bool) -> Move {
    let mut goal = *line;
    let mut is_line = true;
    for _ in 0..MOST_DEPTH {
        match ahead.lack(&goal) {
            Lack::Nothing if is_line => return Move::Line,
            Lack::Nothing => return Move::Deed(goal),
            Lack::Needs(other) => goal = other,
            Lack::Chooses(other) => {
                *chosen = true;
                goal = other;
            }
            // What was chosen may have been the wrong choice.
            Lack::Never if *chosen => return Move::NoAgent,
            Lack::Never => return Move::Never,
            Lack::NoAgent => return Move::NoAgent,
            Lack::Unsought => return Move::Unsought,
        }
        is_line = false;
    }
    Move::Unsought
}

/// What would make the line accepted in this world, whose agents go by the policy. A choice is made only among deeds of
/// the environment, of which one has to come.
///
/// It answers in every world, takes no memory, and leaves the world as it is. What is proved is that the last of the
/// steps is the line itself, once, that there are at most [`Plan::MOST`], and that each has the thread, the queue and
/// the number of then: what the kernel shows behind the effects of the steps before it. Tested, not proved, on drawn
/// scripts: that the steps are accepted one after another, and that no deed of an agent, and no two, make the line
/// accepted where it answers [`Advice::NoAgent`] or [`Advice::Never`].
pub fn advise(world: &World, policy: PolicyName, line: &Deed) -> Advice
    ensures { IsFor (kernel_of world.now) line.now result }
{
    let line = Goal::once(*line);
    let mut plan = Plan::new();
    let mut chosen = false;
    while !plan.is_full() {
        let ahead = Ahead::new(world, &policy, &plan);
        match next_move(&ahead, &line, &mut chosen) {
            Move::Line => return Advice::Steps(plan.with(ahead.step_of(&line))),
            Move::Deed(goal) => plan = plan.with(ahead.step_of(&goal)),
            Move::NoAgent => return Advice::NoAgent,
            Move::Never => return Advice::Never,
            Move::Unsought => return Advice::Unsought,
        }
    }
    if chosen {
        Advice::NoAgent
    } else {
        Advice::Unsought
    }
}
