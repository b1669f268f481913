//! What is kept of the events of a run.

ghost use Rattle.std.specs.Prelude.{◌≡◌, ◌++◌, [], OnOk, if◌then◌else◌};
ghost use Rattle.pc_lab.specs.Stages.{Tells};
ghost use Rattle.pc_lab.specs.Texts.{event_line, is_told, tick_line};

use crate::fault::LabFault;
use pc_calls::Event;
use pc_script::{Command, MOST_BYTES};
use std::io::Write;

/// What a run leaves of its events (own).
#[derive(Debug, Drop)]
pub enum Chronicle {
    /// Nothing.
    Untold,
    /// A text, to which each event is added as the line that asks for it, with a comment that tells the tick in front
    /// of the first of each tick.
    Script(Vec<u8>),
}

/// Adds a comment that tells a tick.
fn write_tick(text: &mut Vec<u8>, tick: u64) -> Result<(), LabFault>
    ensures { OnOk result (text.new.items ≡ text.old.items ++ tick_line tick) }
{
    match write!(text, "# at {tick}\n") {
        Ok(()) => Ok(()),
        Err(_) => Err(LabFault::OutOfMemory),
    }
}

/// Adds the line that asks for an event.
fn write_event(text: &mut Vec<u8>, event: &Event) -> Result<(), LabFault>
    ensures { OnOk result (text.new.items ≡ text.old.items ++ event_line event.now) }
{
    let command = Command::Event(*event);
    match write!(text, "{command}\n") {
        Ok(()) => Ok(()),
        Err(_) => Err(LabFault::OutOfMemory),
    }
}

/// Whether it is the tick that was told last.
fn is_told(told: Option<u64>, tick: u64) -> bool
    ensures { result ≡ is_told told tick }
{
    match told {
        Some(told) => told == tick,
        None => false,
    }
}

/// Adds a comment that tells a tick, unless that was told last.
fn write_new_tick(text: &mut Vec<u8>, told: Option<u64>, tick: u64) -> Result<(), LabFault>
    ensures { OnOk result
        (text.new.items ≡ text.old.items ++ (if is_told told tick then [] else tick_line tick)) }
{
    if is_told(told, tick) {
        Ok(())
    } else {
        write_tick(text, tick)
    }
}

impl Chronicle {
    /// Takes in that an event was taken at a tick; `told` is the tick that was told last.
    pub(crate) fn add(
        &mut self,
        told: Option<u64>,
        tick: u64,
        event: &Event,
    ) -> Result<(), LabFault>
        ensures { OnOk result (Tells told tick event.now self.old self.new) }
    {
        let Chronicle::Script(text) = self else {
            return Ok(());
        };
        write_new_tick(text, told, tick)?;
        write_event(text, event)?;
        if text.len() > MOST_BYTES {
            return Err(LabFault::ScriptTooLong);
        }
        Ok(())
    }
}
