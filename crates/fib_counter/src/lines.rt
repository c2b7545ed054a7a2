// The lines of a script, all of them.
ghost use Rattle.std.specs.Prelude.{◌≡◌, OnOk, ◌++◌};
ghost use Rattle.fib_rounds_turns.specs.Routers.{KeepsCrew, applied_in, new_progress, router_of};
ghost use Rattle.fib_rounds.specs.Stages.{IsHistory};
ghost use Rattle.fib_rounds.specs.Rounds.{stage_of};
ghost use Rattle.fib_counter.specs.CountOutput.{lines_turn};

use fib_commands::Script;
use fib_control::Control;
use fib_core_board::Board;
use fib_outside::Gate;
use fib_rounds_turns::{Means, Progress, run_change_line};
use std::alloc::AllocError;
use std::sync::Wait;

/// Runs all lines of a script from the first on, and appends what they print.
#[tactic(auto, using(fib_rounds_turns::proofs::Keeping::keeps_then))]
pub fn run_script<R: Wait, G: Gate, B: Board>(
    means: &Means<'_, R, G>,
    control: &mut Control<B>,
    progress: &mut Progress,
    text: &mut Vec<u8>,
    script: &Script,
) -> Result<(), AllocError>
    requires fresh { progress.old ≡ new_progress }
    requires none { applied_in control.old ≡ 0 }
    ensures router { OnOk result (router_of control.new progress.new ≡ (lines_turn 1 (router_of control.old progress.old) script.now).0) }
    ensures text { OnOk result (text.new.items ≡ text.old.items ++ (lines_turn 1 (router_of control.old progress.old) script.now).1) }
    ensures history { OnOk result (IsHistory (stage_of control.old progress.old) → IsHistory (stage_of control.new progress.new)) }
    ensures keeps { KeepsCrew control.old control.new }
{
    let mut place = 0;
    'lines: while place < script.lines() {
        let line = script.line(place + 1);
        run_change_line(means, control, progress, text, line, "not counted")?;
        place += 1;
    }
    Ok(())
}
