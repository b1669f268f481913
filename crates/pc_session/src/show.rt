//! What `show` tells of a view, and how it is let go of.

ghost use Rattle.std.specs.Prelude.{◌≡◌, map as map_list, IfOk};
ghost use Rattle.std.specs.FinMap as map;
ghost use Rattle.pc_session.specs.Inner.Showing.{row_told, rows_told};
ghost use Rattle.pc_session.specs.ShownViews.{without_view};

use pc_messages::{Kind, Tid};
use pc_script::{EarlyNumbers, Response, ShownThread, ShownThreads};
use pc_thread_view::ThreadView;
use pc_view::View;
use std::alloc::{AllocError, Global};

/// The numbers of early messages.
fn numbers_of(alloc: Global, early: &[(u32, Kind)]) -> Result<EarlyNumbers, AllocError>
    ensures { IfOk result (λ numbers. numbers ≡ map_list (λ e. e.0) early.now) }
{
    let mut numbers = EarlyNumbers::new(alloc);
    for (number, _) in early {
        numbers.push(*number)?;
    }
    Ok(numbers)
}

/// The row of one thread.
fn row_of(alloc: Global, thread: Tid, known: &ThreadView) -> Result<ShownThread, AllocError>
    ensures { IfOk result (λ row. row ≡ row_told thread known.now) }
{
    Ok(ShownThread {
        thread,
        upto: known.upto(),
        reported: known.reported(),
        early: numbers_of(alloc, known.early())?,
    })
}

/// The rows of all threads that the view knows of, in the order of their names.
pub fn shown_threads(alloc: Global, view: &View) -> Result<ShownThreads, AllocError>
    ensures { IfOk result (λ rows. rows ≡ rows_told (map.entries view.now.threads)) }
{
    let mut rows = ShownThreads::new(alloc);
    for (thread, known) in view.iter() {
        rows.push(row_of(alloc, thread, known)?)?;
    }
    Ok(rows)
}

/// Lets go of what a response tells of a view, where it does, or it would still stand while the next one is made. An
/// observer of a walk calls this once it has told the response. Any other response stays as it is.
pub fn let_view_go(response: &mut Response)
    ensures { response.new ≡ without_view response.old }
{
    if let Response::View(_) = response {
        *response = Response::Opened;
    }
}
