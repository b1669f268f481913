//! The text that compares runs of the lab.
//!
//! A [`Column`] is a run with the name of its variant. [`text_of`] lays out what is told of runs: as a table, with a
//! line for each row, or as CSV, with a line for each run. Which rows there are and what each tells is in
//! `specs/Rows.antt` and `specs/Values.antt`, how a percentile is found in `specs/Percentiles.antt`, and how all is
//! written in `specs/Sheets.antt`. [`figures_of`] tells of all waits of a run in four numbers, for who draws them.
#![tactic(auto)]

mod cells;
mod csv;
mod figures;
mod form;
mod names;
mod percentiles;
mod rows;
mod sheet;
mod strip;
mod table;
mod values;
mod waits;

pub use figures::{Figures, figures_of};
pub use form::{Column, Form, Layout};
pub use sheet::text_of;
