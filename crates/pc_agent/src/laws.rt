//! What holds of every agent, over the definitions alone.

ghost use Rattle.std.specs.Prelude.{◌≡◌};
ghost use Rattle.pc_messages.specs.Run.{Run, Extends};
ghost use Rattle.pc_agent.specs.declared.agent.Agent.{Agent};
ghost use Rattle.pc_agent.specs.PlainAgent.{PlainAgent};
ghost use Rattle.pc_agent.specs.Running.{LeastNameIsFirst};
ghost use Rattle.pc_agent.specs.Shows.{ShowsAgent};

use pc_view::views_stay_as_the_run_goes_on;

/// What an agent shows of a run it shows of each run that goes on from it.
pub fn agents_stay_as_the_run_goes_on()
    ensures { (longer shorter : Run) (p : PlainAgent) (agent : Agent) → Extends longer shorter
        → ShowsAgent shorter p agent
        → ShowsAgent longer p agent }
{
    views_stay_as_the_run_goes_on();
}

/// Where steals are not exact, the first thread that may be taken over is the one of these with the least name.
pub fn the_least_name_is_first()
    ensures { LeastNameIsFirst }
{}
