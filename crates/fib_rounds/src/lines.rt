// The lines of a round.
ghost use Rattle.std.specs.Prelude.{◌≡◌, ◌≤◌, length, drop, IfOk};
ghost use Rattle.fib_rounds_turns.specs.Routers.{KeepsCrew, applied_in, router_of};
ghost use Rattle.fib_rounds.specs.Stages.{IsHistory};
ghost use Rattle.fib_rounds.specs.Rounds.{GoesOn, StopsAt, lines_run, stage_of};

use fib_commands::Script;
use fib_control::Control;
use fib_core_board::Board;
use fib_outside::Gate;
use fib_rounds_turns::{Means, Progress, run_line};
use std::alloc::AllocError;
use std::sync::Wait;

/// Where the lines of a round end: at the place of a line that asks for so many packets, or at the script's end.
#[derive(Clone, Copy, Debug, PartialEq, Eq)]
pub struct Stop {
    /// How many lines stand before.
    pub place: u32,
    pub asked: Option<u32>,
}

/// Runs the lines from a place up to the next one that asks for packets. So many lines were run before.
#[tactic(auto, using(fib_rounds_turns::proofs::Keeping::keeps_then))]
pub fn run_lines<R: Wait, G: Gate, B: Board>(
    means: &Means<'_, R, G>,
    control: &mut Control<B>,
    progress: &mut Progress,
    text: &mut Vec<u8>,
    script: &Script,
    from: u32,
) -> Result<Stop, AllocError>
    requires inside { from ≤ length script.now }
    requires lines { progress.old.lines ≡ from }
    requires few { applied_in control.old ≤ from }
    ensures on { IfOk result (λ stop. GoesOn script.now from (stage_of control.old progress.old) text.old.items stop.place
        (stage_of control.new progress.new) text.new.items) }
    ensures stops { IfOk result (λ stop. StopsAt (drop stop.place script.now) (router_of control.new progress.new) stop.asked) }
    ensures later { IfOk result (λ stop. from ≤ stop.place) }
    ensures inside { IfOk result (λ stop. stop.place ≤ length script.now) }
    ensures short { IfOk result (λ stop. stop.place ≤ 65535) }
    ensures few { IfOk result (λ stop. applied_in control.new ≤ stop.place) }
    ensures lines { IfOk result (λ stop. progress.new.lines ≡ lines_run stop.place stop.asked) }
    ensures history { IfOk result (λ stop. IsHistory (stage_of control.old progress.old) → IsHistory (stage_of control.new progress.new)) }
    ensures keeps { KeepsCrew control.old control.new }
{
    let mut place = from;
    'lines: while place < script.lines() {
        let line = script.line(place + 1);
        let asked = run_line(means, control, progress, text, line)?;
        if asked.is_some() {
            return Ok(Stop { place, asked });
        }
        place += 1;
    }
    Ok(Stop { place, asked: None })
}
