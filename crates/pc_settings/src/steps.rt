//! The texts of steps.

ghost use Rattle.std.specs.Prelude.{◌≡◌, IsSome};
ghost use Rattle.toml.specs.Data.{as_str};
ghost use Rattle.toml.specs.View.{view};
ghost use Rattle.pc_settings.specs.Inner.Values.{text_in};
ghost use Rattle.pc_settings.specs.Steps.{RunStepsAreReadAsWritten, StepsAreReadAsWritten};
ghost use Rattle.pc_settings.specs.Steps.{read_run_step, read_step, run_leaving};

use pc_calls::Leaving;
use pc_load::LoadStep;
use pc_script::count;
use pc_threads::Step as RunStep;
use toml::Value;

/// The step that a text is.
pub(crate) fn step_of(text: &str) -> Option<LoadStep>
    ensures { result ≡ read_step text.now }
{
    let (word, number) = text.split_once(' ')?;
    let leaving = Leaving::named(word.as_bytes())?;
    let ticks = count(number.as_bytes())?;
    Some(LoadStep { leaving, ticks })
}

/// The step that a value is, which is a text.
pub(crate) fn step_in(value: &Value) -> Option<LoadStep>
    requires { IsSome (as_str (view value.now)) }
    ensures { result ≡ read_step (text_in value.now) }
{
    match value.as_str() {
        Some(text) => step_of(text),
        None => unreachable!(),
    }
}

/// The same step, of a run of agents in threads.
fn run_step(step: LoadStep) -> RunStep
    ensures { result ≡ run_leaving step.leaving step.ticks }
{
    match step.leaving {
        Leaving::Yield => RunStep::Yield(step.ticks),
        Leaving::Block => RunStep::Block(step.ticks),
        Leaving::Preempt => RunStep::Preempt(step.ticks),
        Leaving::Die => RunStep::Die(step.ticks),
    }
}

/// The step of a run that a value is, which is a text.
pub(crate) fn run_step_in(value: &Value) -> Option<RunStep>
    requires { IsSome (as_str (view value.now)) }
    ensures { result ≡ read_run_step (text_in value.now) }
{
    match step_in(value) {
        Some(step) => Some(run_step(step)),
        None => None,
    }
}

/// A text is read as a step exactly where the step is written so, of a load and of a run. It does nothing.
pub fn steps_are_read_as_written()
    ensures loads { StepsAreReadAsWritten }
    ensures runs { RunStepsAreReadAsWritten }
{}
