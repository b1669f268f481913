//! The sentence on what would make a refused line accepted: its steps, as a script spells them.

use crate::sentences::Sentences;
use pc_advice::{Advice, Deed, Plan, PlannedStep, advise};
use pc_policy::PolicyName;
use pc_world::World;
use std::fmt::{self, Write};

/// What would make a line accepted that was refused.
pub(super) fn advised(
    text: &mut Sentences,
    world: &World,
    policy: &PolicyName,
    deed: &Deed,
) -> fmt::Result {
    match advise(world, *policy, deed) {
        Advice::Steps(plan) => steps(text, &plan),
        Advice::NoAgent => writeln!(text, "No agent can make it accepted."),
        Advice::Never => writeln!(text, "Nothing makes it accepted."),
        Advice::Unsought => writeln!(text, "What would make it accepted was not looked for."),
    }
}

/// The steps, of which the last is the line itself.
fn steps(text: &mut Sentences, plan: &Plan) -> fmt::Result {
    let mut before = if plan.needs_environment() {
        "No agent can make it accepted before the environment acts: "
    } else {
        "Accepted: "
    };
    for step in plan.steps() {
        let spelled = Spelled(*step);
        write!(text, "{before}{spelled}")?;
        before = ", then ";
    }
    writeln!(text, ".")
}

/// A step as a script spells it, and how often it stands there.
#[derive(Clone, Copy)]
struct Spelled(PlannedStep);

impl fmt::Display for Spelled {
    fn fmt<W: fmt::Write>(&self, f: &mut fmt::Formatter<W>) -> fmt::Result {
        let command = self.0.deed.command(self.0.number);
        let times = self.0.times;
        if times == 1 {
            write!(f, "`{command}`")
        } else {
            write!(f, "`{command}` {times} times")
        }
    }
}
