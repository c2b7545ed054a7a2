// The lines of a command file.
ghost use Rattle.std.specs.Prelude.{◌≡◌, ◌++◌, IfOk, IfSome, OnOk};
ghost use Rattle.fib_commands.specs.Lines.{IsWrittenLine, line_of};
ghost use Rattle.fib_resolve.specs.Reachable.{IsWritten};
ghost use Rattle.fib_resolve.specs.Tables.{fresh};
ghost use Rattle.fib_checker.specs.Checks.{check_of, check_text};
ghost use Rattle.fib_checker.specs.Output.{change_turn, check_turn, line_turn, other_turn, printed, turn_of};
ghost use Rattle.fib_checker.specs.Ready.{IsReady, Takes};

use crate::checker::{Checker, begin, change};
use crate::checks::{Check, interface_number, put_verdicts, read_check};
use fib_commands::{Line, LineError, Script, read_line};
use fib_print::{put_message, put_refusal};
use fib_resolve::{Edit, Refusal};
use std::alloc::{AllocError, Global};

// Line n makes a change, or is refused.
#[tactic(auto, unfolding(crate::specs::Output::change_turn))]
fn run_change(
    checker: &mut Checker,
    out: &mut Vec<u8>,
    n: u32,
    edit: &Edit,
) -> Result<(), AllocError>
    requires ready { IsReady checker.old.config.tables checker.old }
    requires written { IsWritten edit.now }
    ensures { OnOk result (Takes (change_turn n checker.old.config.tables edit.now) out.old.items checker.new out.new.items) }
{
    match change(checker, edit)? {
        None => Ok(()),
        Some(refusal) => put_refusal(out, n, refusal),
    }
}

// Line n checks a source.
#[tactic(auto, unfolding(crate::specs::Checks::check_text))]
fn run_check(checker: &Checker, out: &mut Vec<u8>, n: u32, check: &Check) -> Result<(), AllocError>
    requires ready { IsReady checker.now.config.tables checker.now }
    ensures { OnOk result (out.new.items ≡ out.old.items ++ check_text n checker.now.config.tables check.now.source check.now.interface) }
{
    let Some(number) = interface_number(checker.config.tables(), &check.interface) else {
        return put_refusal(out, n, Refusal::NoSuchInterface);
    };
    let strictly = checker.urpf.strict(check.source, number as u32);
    let loosely = checker.urpf.loose(check.source);
    put_verdicts(out, strictly, loosely)?;
    Ok(())
}

// Line n, which says nothing that is known, checks a source or is refused.
fn run_unknown(
    alloc: Global,
    checker: &Checker,
    out: &mut Vec<u8>,
    n: u32,
    line: &[u8],
) -> Result<(), AllocError>
    requires ready { IsReady checker.now.config.tables checker.now }
    ensures { OnOk result (out.new.items ≡ out.old.items ++ (check_turn n checker.now.config.tables (check_of line.now)).1) }
{
    match read_check(alloc, line) {
        Ok(check) => run_check(checker, out, n, &check),
        Err(LineError::Syntax) => put_message(out, n, "syntax"),
        Err(LineError::Memory) => Err(AllocError),
    }
}

// Line n does what isn't checked.
fn run_other(checker: &Checker, out: &mut Vec<u8>, n: u32) -> Result<(), AllocError>
    requires ready { IsReady checker.now.config.tables checker.now }
    ensures { OnOk result (Takes (other_turn n checker.now.config.tables) out.old.items checker.now out.new.items) }
{
    put_message(out, n, "not checked")
}

// What a line says; None where it is none of the grammar of changes.
fn said(alloc: Global, line: &[u8]) -> Result<Option<Line>, AllocError>
    ensures value { IfOk result (λ said. said ≡ line_of line.now) }
    ensures written { IfOk result (λ said. IfSome said IsWrittenLine) }
{
    match read_line(alloc, line) {
        Ok(line) => Ok(Some(line)),
        Err(LineError::Syntax) => Ok(None),
        Err(LineError::Memory) => Err(AllocError),
    }
}

// Does what line n says, and appends what it prints.
fn run_said(
    alloc: Global,
    checker: &mut Checker,
    out: &mut Vec<u8>,
    n: u32,
    line: &[u8],
    said: Option<Line>,
) -> Result<(), AllocError>
    requires ready { IsReady checker.old.config.tables checker.old }
    requires written { IfSome said IsWrittenLine }
    ensures { OnOk result (Takes (line_turn n checker.old.config.tables said (check_of line.now)) out.old.items checker.new out.new.items) }
{
    match said {
        Some(Line::Nothing) => Ok(()),
        Some(Line::Change(edit)) => run_change(checker, out, n, &edit),
        Some(_) => run_other(checker, out, n),
        None => run_unknown(alloc, checker, out, n, line),
    }
}

// Does what line n says, and appends what it prints.
#[tactic(auto, unfolding(crate::specs::Output::turn_of))]
fn run_line(
    alloc: Global,
    checker: &mut Checker,
    out: &mut Vec<u8>,
    n: u32,
    line: &[u8],
) -> Result<(), AllocError>
    requires ready { IsReady checker.old.config.tables checker.old }
    ensures { OnOk result (Takes (turn_of n checker.old.config.tables line.now) out.old.items checker.new out.new.items) }
{
    let said = said(alloc, line)?;
    run_said(alloc, checker, out, n, line, said)
}

/// What the lines of a command file print.
pub fn run_script(alloc: Global, script: &Script) -> Result<Vec<u8>, AllocError>
    ensures { IfOk result (λ text. text.items ≡ printed 1 fresh script.now) }
{
    let mut checker = begin(alloc)?;
    let mut out = Vec::new(alloc);
    for before in 0..script.lines() {
        let n = before + 1;
        run_line(alloc, &mut checker, &mut out, n, script.line(n))?;
    }
    Ok(out)
}
