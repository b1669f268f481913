//! Scripts: their text, the commands that it spells, and the responses that are written.
//!
//! A script is bytes. Its lines end with a line feed, of which the last may be missing; one carriage return at a
//! line's end is dropped. Words are separated by spaces. A line without words, or whose first byte is `#`, has no
//! reply; every other line spells a command, or is a fault, at which the script ends. The first line that has a
//! reply may be `version 2` or `version 3`, which names the script's [`Version`].
//!
//! The words of each command stand in the table of `specs/Grammar.antt`, the texts of what is answered in
//! `specs/Responses.antt`. What the commands do is left to a [`Machine`]: the program gives one. [`walk`] is the one
//! loop over a script's lines, of which an [`Observer`] is told; [`run_script`] has the one that writes the replies.
//! [`converse`] takes the same lines, and tells the same observers, as they come, and goes on behind a fault.
#![tactic(auto)]

mod command;
mod digits;
mod display;
mod fields;
mod forms;
mod grammar;
mod input;
pub mod laws;
mod line;
mod lines;
mod lists;
mod machine;
mod observer;
mod outcome;
mod output;
mod piece;
mod places;
mod policy;
mod response;
mod run;
mod session;
mod short;
mod spelled;
mod text;
mod trouble;
mod version;
mod walker;
mod words;

pub use command::{Command, Read};
pub use digits::{count, number};
pub use forms::{CommandInWords, CommandTable, Orders};
pub use grammar::Verb;
pub use input::{MOST_BYTES, read_bytes, read_text};
pub use line::{Wish, asked};
pub use lines::{Lines, first_word, lines_of};
pub use lists::{EarlyNumbers, ShownThread, ShownThreads};
pub use machine::Machine;
pub use observer::{Line, Observer};
pub use outcome::{Outcome, ScriptFault};
pub use response::Response;
pub use run::run_script;
pub use session::{Conversed, Helper, MOST_LINE, converse, run_session};
pub use trouble::{Trouble, Wanted, trouble_in};
pub use version::Version;
pub use walker::walk;
