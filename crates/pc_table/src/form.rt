//! What is compared, and in which form.

use pc_lab::Summary;

/// How a comparison is written (own).
#[derive(Clone, Copy, Debug, PartialEq, Eq)]
pub enum Layout {
    /// A line for each row: its name, and the value of each run.
    Table,
    /// A line for each run, with commas between its values.
    Csv,
}

/// What a comparison is to tell, and how (own).
#[derive(Clone, Copy, Debug, PartialEq, Eq)]
pub struct Form {
    pub layout: Layout,
    /// Whether the time of each CPU is told, too.
    pub per_cpu: bool,
}

/// A run that is compared (own).
#[derive(Debug, Drop)]
pub struct Column<'a> {
    /// The name of its variant.
    pub name: &'a [u8],
    /// What is told of it.
    pub summary: Summary,
}
