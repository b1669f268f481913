//! Before which turns an agent restarts.

use crate::settings::Config;
use pc_messages::Cpu;

/// Whether the CPU's agent restarts before that turn.
pub(crate) fn restarts_at(config: &Config, cpu: Cpu, turn: u32) -> bool {
    config.restarts().iter().any(|restart| restart.cpu == cpu.index() as i64
        && restart.turn == turn as i64)
}

/// Whether the CPU's agent restarts before a turn behind that one.
pub(crate) fn restarts_later(config: &Config, cpu: Cpu, turn: u32) -> bool {
    config.restarts().iter().any(|restart| restart.cpu == cpu.index() as i64
        && restart.turn > turn as i64)
}
