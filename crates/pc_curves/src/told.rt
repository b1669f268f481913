//! What a picture says of the waits of runs.

ghost use Rattle.std.specs.Prelude.{◌≡◌, ◌++◌, Some, IfOk, IfSome, OnOk, codes, flat_map};
ghost use Rattle.pc_curves.specs.Waits.{column_title, figures_text, ticks_text, titled, waits_title};

use pc_table::{Column, Figures, figures_of};
use std::alloc::{AllocError, Global};
use std::fmt::{self, Display};
use std::io::Write;

/// A percentile: `-` where there is none.
#[derive(Clone, Copy)]
pub(crate) struct Ticks(pub(crate) Option<u64>);

impl Display for Ticks {
    ghost output = { λ ticks. Some (ticks_text ticks.0) };

    fn fmt<W: fmt::Write>(&self, f: &mut fmt::Formatter<W>) -> fmt::Result {
        match self.0 {
            Some(ticks) => write!(f, "{ticks}"),
            None => f.write_str("-"),
        }
    }
}

/// The figures of waits: `waits 3, p50 1, p90 2, p99 2`.
#[derive(Clone, Copy)]
pub(crate) struct FiguresText<'a>(pub(crate) &'a Figures);

impl Display for FiguresText<'_> {
    ghost output = { λ told. Some (figures_text told.0.now) };

    fn fmt<W: fmt::Write>(&self, f: &mut fmt::Formatter<W>) -> fmt::Result {
        let waits = self.0.waits;
        let p50 = Ticks(self.0.p50);
        let p90 = Ticks(self.0.p90);
        let p99 = Ticks(self.0.p99);
        write!(f, "waits {waits}, p50 {p50}, p90 {p90}, p99 {p99}")
    }
}

/// Adds what a value is written as.
fn push_spelled<T: Display>(text: &mut Vec<u8>, value: &T) -> Result<(), AllocError>
    ensures { OnOk result (IfSome (T.output value.now) (λ said. text.new.items ≡ text.old.items ++ said)) }
{
    match write!(text, "{value}") {
        Ok(()) => Ok(()),
        Err(_) => Err(AllocError),
    }
}

/// Adds a name and what is told behind it.
fn push_titled(text: &mut Vec<u8>, name: &[u8], figures: &Figures) -> Result<(), AllocError>
    ensures { OnOk result (text.new.items ≡ text.old.items ++ titled name.now figures.now) }
{
    text.extend_from_slice(name)?;
    text.extend_from_slice(b": ")?;
    push_spelled(text, &FiguresText(figures))
}

/// A full list gets room for the figures of so many runs more at least: most pictures are of few.
const FEW: usize = 8;

/// Adds what is told of a run, and keeps its figures.
fn push_column(
    text: &mut Vec<u8>,
    all: &mut Vec<Figures>,
    alloc: Global,
    column: &Column<'_>,
) -> Result<(), AllocError>
    ensures { OnOk result (text.new.items ≡ text.old.items ++ column_title column.now) }
{
    let figures = figures_of(alloc, &column.summary)?;
    push_titled(text, column.name, &figures)?;
    if all.len() == all.capacity() {
        all.reserve(FEW)?;
    }
    all.push_reserved(figures);
    Ok(())
}

/// Adds what is told of runs that come behind others.
fn push_columns(
    text: &mut Vec<u8>,
    all: &mut Vec<Figures>,
    alloc: Global,
    columns: &[Column<'_>],
) -> Result<(), AllocError>
    ensures { OnOk result (text.new.items
        ≡ text.old.items ++ flat_map (λ column. codes "; " ++ column_title column) columns.now) }
{
    for column in columns {
        text.extend_from_slice(b"; ")?;
        push_column(text, all, alloc, column)?;
    }
    Ok(())
}

/// What is told of all runs. Their figures are added to those that are kept.
pub(crate) fn title_of(
    alloc: Global,
    columns: &[Column<'_>],
    all: &mut Vec<Figures>,
) -> Result<Vec<u8>, AllocError>
    ensures { IfOk result (λ title. title.items ≡ waits_title columns.now) }
{
    let mut text = Vec::new(alloc);
    if let Some((first, others)) = columns.split_first() {
        push_column(&mut text, all, alloc, first)?;
        push_columns(&mut text, all, alloc, others)?;
    }
    Ok(text)
}
