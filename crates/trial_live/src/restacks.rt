//! Which prefixes are restacked after a change.
ghost use Rattle.trial_live.specs.Crewed.{IsHome, SameCrew};

use crate::live::{change_by, settle_home};
use fib_addr::Prefix;
use fib_cells::LiveBoard;
use fib_control::Control;
use fib_stack::Turn;
use std::alloc::Global;

/// Makes the changes of these lines. None where one isn't made.
pub fn change_each(
    alloc: Global,
    control: &mut Control<LiveBoard<'_>>,
    lines: &[&str],
) -> Option<()>
    ensures { SameCrew control.old.plane.board control.new.plane.board }
{
    for line in lines {
        change_by(alloc, control, line)?;
    }
    Some(())
}

// Turns until none is queued, and whose they were. None where memory is wanted.
fn turned(alloc: Global, control: &mut Control<LiveBoard<'_>>) -> Option<Vec<Prefix>>
    ensures { SameCrew control.old.plane.board control.new.plane.board }
{
    let mut prefixes = Vec::new(alloc);
    for _count in 0..10_000 {
        if control.queued() == 0 {
            return Some(prefixes);
        }
        let turn = control.turn().ok()?;
        if let Turn::Restacked { entry, .. } = turn {
            prefixes.push(entry).ok()?;
        }
    }
    None
}

/// Makes the change of a line, all workers being at home, and settles it. Answers the prefixes that were restacked, in order, each as often as it was;
/// None where the change isn't made, or memory is wanted.
pub fn restacked_by(
    alloc: Global,
    control: &mut Control<LiveBoard<'_>>,
    line: &str,
) -> Option<Vec<Prefix>>
    requires { IsHome control.old.plane.board }
    ensures { SameCrew control.old.plane.board control.new.plane.board }
{
    change_by(alloc, control, line)?;
    let prefixes = turned(alloc, control)?;
    settle_home(control)?;
    Some(prefixes)
}
