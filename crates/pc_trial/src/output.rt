//! What is asked of the lab.

ghost use Rattle.std.specs.Prelude.{option_map, string_bytes};
ghost use Rattle.pc_trial.specs.Tried.{IsAskedBy};

use pc_table::{Form, Layout};

/// What is told of a load that is tried (own).
#[derive(Debug, Drop)]
pub enum LabOutput {
    /// A table that compares all variants.
    Table(Form),
    /// A picture of how long threads waited under each variant.
    Picture,
    /// What happens under the variant of this name, as a script.
    Script(String),
}

impl LabOutput {
    /// What is wanted where these flags stand. Where a script is named they change nothing, and where a picture is
    /// asked for the flags of the table change nothing.
    pub fn of(per_cpu: bool, csv: bool, picture: bool, script: Option<String>) -> LabOutput
        ensures { IsAskedBy per_cpu csv picture (option_map string_bytes script) result }
    {
        let layout = if csv { Layout::Csv } else { Layout::Table };
        match script {
            Some(name) => LabOutput::Script(name),
            None if picture => LabOutput::Picture,
            None => LabOutput::Table(Form { layout, per_cpu }),
        }
    }
}
