//! What is read of a book before its run.
ghost use Rattle.std.specs.Prelude.{IfOk, IfErr};
ghost use Rattle.book.specs.Checks.{Judged};
ghost use Rattle.book.specs.Faults.{book_refusal, BeforeRun};
ghost use Rattle.book.specs.Plans.{plan_checks, Planned};

use crate::faults::BookFault;
use crate::header::Layout;
use crate::reading::read_layout;
use crate::settings::{Settings, read_settings};

/// Where the parts of a book lie, and the settings of its run.
#[derive(Clone, Copy)]
pub(crate) struct Plan {
    pub(crate) layout: Layout,
    pub(crate) settings: Settings,
}

/// Reads the header, then the settings.
pub(crate) fn read_plan(book: &[u8]) -> Result<Plan, BookFault>
    ensures judged { Judged book_refusal (plan_checks book.now) result }
    ensures unrun { IfErr result (λ f. BeforeRun f) }
    ensures planned { IfOk result (λ p. Planned book.now p) }
{
    let layout = read_layout(book)?;
    let settings = read_settings(book, layout.settings.offset as usize)?;
    Ok(Plan { layout, settings })
}
