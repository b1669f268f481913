//! What holds of every session, and of every script.

ghost use Rattle.pc_session.specs.GoingOn.{OutputsGoOn, SessionsGoOn};

use pc_view::upto_is_the_greatest;
use pc_world::laws::{every_cpu_can_be_mended, every_event_has_a_step, kernel_facts_hold};

/// A session can always go on: whatever commands follow, there are responses to them.
pub fn sessions_go_on()
    ensures { SessionsGoOn }
{
    every_event_has_a_step();
    every_cpu_can_be_mended();
    kernel_facts_hold();
    upto_is_the_greatest();
}

/// What was written before memory ran out begins an output of the whole script, whatever its other lines ask for.
pub fn outputs_go_on()
    ensures { OutputsGoOn }
{
    sessions_go_on();
}
