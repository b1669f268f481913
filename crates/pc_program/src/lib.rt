//! What `pc-sim` does, whatever gives its texts and takes its answers: it replays scripts of events on the kernel model
//! and its agents, explains or draws them, answers commands as they come, or runs agents, in threads or by seeds.
//! Whoever calls it has the files, the streams and the exit.
//!
//! A script over memory, of which the third line is not answered, since the second is a fault:
//!
//! ```
//! let mut reader = b"enclave 2 8 100 16 1000\ntick 0 0\nstatus t0\n".as_slice();
//! let mut writer = Vec::new(alloc);
//! let ended = run_script(alloc, &mut reader, &mut writer);
//! assert_eq!(rt; ended, Ok(Outcome::FaultLine(2)));
//! assert_eq!(rt; writer.as_slice(), b"ok\nfault line 2\n".as_slice());
//! ```
#![tactic(auto)]

mod command_line;
mod command_trouble;
mod ending;
mod forms;
mod input;
mod numbers;
mod progress;
mod report;
mod run_text;
mod scripted;
mod seeds;
mod talk;
mod tally;

pub use command_line::{CommandFault, ProgramCommand, RunsFault, VariantsFrom, read_command};
pub use command_trouble::write_command_trouble;
pub use ending::{BadSettings, Ending, Failure, Unsettled};
pub use forms::{ScriptForm, make, make_flushed, replay_flushed, run_flushed, run_script};
pub use input::{MOST_SETTINGS, read_settings};
pub use pc_draw::{Axis, DrawnPart, Interval, Missing};
pub use pc_policy::{AgentPolicy, Order, OrderFault, OrderName, PolicyName, Stealing};
pub use pc_script::Helper;
pub use pc_seeds::{Manner, Stall};
pub use pc_settings::{
    Field, SettingsFault, read_config, steps_are_read_as_written, write_trouble,
};
pub use progress::{Progress, SoFar};
pub use report::ReportForm;
pub use run_text::{RunTextFault, Scheduling, run_config};
pub use scripted::run_scripted;
pub use seeds::{Seeds, Tallied, tally_flushed};
pub use talk::{Manual, converse_flushed};
pub use tally::{Tally, TallyRow, Unreported};
