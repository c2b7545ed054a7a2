// What a line does outside a batch, and the call for every line.
ghost use Rattle.std.specs.Prelude.{◌≡◌, ◌++◌, ◌+◌, ◌-◌, ◌<◌, ◌≤◌, ◌^◌, OnOk, IfOk, IfSome, None, Some, codes};
ghost use Rattle.fib_commands.specs.Lines.{line_of, IsWrittenLine};
ghost use Rattle.fib_resolve.specs.Reachable.{IsWritten};
ghost use Rattle.fib_print.specs.Ends.{end_text};
ghost use Rattle.fib_control.specs.Controls.{Control as ControlValue, tables_in};
ghost use Rattle.fib_rounds_turns.specs.Changes.{Stays};
ghost use Rattle.fib_rounds_turns.specs.Listings.{listing_text};
ghost use Rattle.fib_rounds_turns.specs.Routers.{HasGrown, KeepsCrew, Stands, applied_in, router_of};
ghost use Rattle.fib_rounds_turns.specs.inner.Done.{HasTurned};
ghost use Rattle.fib_rounds_turns.specs.Turns.{change_turn, lookup_text, alone, turn_in, turn_of, asks, asks_in, end_turn};

use crate::batches::within;
use crate::changes::{apply, settle, walk_on};
use crate::means::Means;
use crate::progress::Progress;
use fib_addr::Addr;
use fib_commands::{Line, LineError, read_line};
use fib_control::Control;
use fib_core_board::Board;
use fib_outside::Gate;
use fib_print::{BatchFault, put_batch, put_end, put_message, put_refusal};
use fib_print_listing::{put_adjacencies, put_entries, put_path_lists};
use fib_resolve::{Edit, End, Tables};
use std::alloc::{AllocError, Global};
use std::sync::Wait;

/// A change outside a batch.
#[tactic(auto, unfolding(crate::specs::Turns::change_turn))]
pub fn change<R: Wait, G: Gate, B: Board>(
    means: &Means<'_, R, G>,
    control: &mut Control<B>,
    progress: &mut Progress,
    out: &mut Vec<u8>,
    edit: &Edit,
) -> Result<(), AllocError>
    requires written { IsWritten edit.now }
    requires few { applied_in control.old < progress.old.lines }
    requires fewer { progress.old.refused < progress.old.lines }
    requires alone { progress.old.batch ≡ None }
    ensures did { HasTurned (router_of control.old progress.old)
        (change_turn progress.old.lines
        (router_of control.old progress.old) edit.now) control.old control.new progress.new out.old.items out.new.items result }
    ensures lines { progress.new.lines ≡ progress.old.lines }
{
    let number = progress.lines();
    let next = control.version().applied + 1;
    means.gate.changing(next);
    match apply(means.rt, control, edit)? {
        None => {
            means.gate.applied(next);
            walk_on(control, means.walk)
        }
        Some(refusal) => {
            progress.refuse();
            put_refusal(out, number, refusal)
        }
    }
}

fn put_answer(out: &mut Vec<u8>, tables: &Tables, end: &End) -> Result<(), AllocError>
    ensures { OnOk result (out.new.items ≡ out.old.items ++ (end_text tables.now end.now ++ codes "\n")) }
{
    put_end(out, tables, end)?;
    out.extend_from_slice(b"\n")
}

// Settles, and answers from the control plane.
#[tactic(auto, unfolding(crate::specs::Turns::lookup_text))]
fn lookup<R: Wait, B: Board>(
    rt: &R,
    control: &mut Control<B>,
    out: &mut Vec<u8>,
    addr: Addr,
    hash: u32,
) -> Result<(), AllocError>
    ensures text { OnOk result (out.new.items ≡ out.old.items ++ lookup_text (tables_in control.old) addr hash) }
    ensures stays { Stays control.old control.new }
    ensures keeps { KeepsCrew control.old control.new }
{
    settle(rt, control)?;
    let end = control.lookup(addr, hash);
    put_answer(out, control.tables(), &end)
}

/// One of the three listings.
#[derive(Clone, Copy)]
enum Listing {
    Entries,
    PathLists,
    Adjacencies,
}

fn put_listing<B: Board>(
    alloc: Global,
    control: &Control<B>,
    out: &mut Vec<u8>,
    listing: Listing,
) -> Result<(), AllocError>
    ensures { OnOk result (out.new.items ≡ out.old.items ++ listing_text listing (tables_in control.now)) }
{
    let (tables, entries) = (control.tables(), control.entries());
    match listing {
        Listing::Entries => put_entries(out, alloc, tables, entries),
        Listing::PathLists => put_path_lists(out, alloc, tables, entries),
        Listing::Adjacencies => put_adjacencies(out, alloc, tables, entries),
    }
}

// A listing, once all changes are settled.
fn show<R: Wait, G: Gate, B: Board>(
    means: &Means<'_, R, G>,
    control: &mut Control<B>,
    out: &mut Vec<u8>,
    listing: Listing,
) -> Result<(), AllocError>
    ensures text { OnOk result (out.new.items ≡ out.old.items ++ listing_text listing (tables_in control.old)) }
    ensures stays { Stays control.old control.new }
    ensures keeps { KeepsCrew control.old control.new }
{
    settle(means.rt, control)?;
    put_listing(means.alloc, control, out, listing)
}

// A line outside a batch, and how many packets it asks for.
fn alone<R: Wait, G: Gate, B: Board>(
    means: &Means<'_, R, G>,
    control: &mut Control<B>,
    progress: &mut Progress,
    out: &mut Vec<u8>,
    line: Line,
) -> Result<Option<u32>, AllocError>
    requires written { IsWrittenLine line }
    requires few { applied_in control.old < progress.old.lines }
    requires fewer { progress.old.refused < progress.old.lines }
    requires alone { progress.old.batch ≡ None }
    ensures did { HasTurned (router_of control.old progress.old)
        (alone progress.old.lines (router_of control.old progress.old)
        (Some line)) control.old control.new progress.new out.old.items out.new.items result }
    ensures lines { progress.new.lines ≡ progress.old.lines }
    ensures asks { IfOk result (λ count. count ≡ asks_in None (Some line)) }
{
    match line {
        Line::Nothing => {}
        Line::Change(edit) => change(means, control, progress, out, &edit)?,
        Line::Lookup(addr, hash) => lookup(means.rt, control, out, addr, hash)?,
        Line::ShowFib => show(means, control, out, Listing::Entries)?,
        Line::ShowPathLists => show(means, control, out, Listing::PathLists)?,
        Line::ShowAdj => show(means, control, out, Listing::Adjacencies)?,
        Line::Forward(count) => return Ok(Some(count)),
        Line::Begin => progress.open(means.alloc),
        Line::Commit => {
            progress.refuse();
            put_batch(out, progress.lines(), BatchFault::NoBatch)?;
        }
    }
    Ok(None)
}

/// What a line says, or None where it is no line of the grammar.
pub fn said(alloc: Global, line: &[u8]) -> Result<Option<Line>, AllocError>
    ensures value { IfOk result (λ said. said ≡ line_of line.now) }
    ensures written { IfOk result (λ said. IfSome said IsWrittenLine) }
{
    match read_line(alloc, line) {
        Ok(line) => Ok(Some(line)),
        Err(LineError::Syntax) => Ok(None),
        Err(LineError::Memory) => Err(AllocError),
    }
}

// A line of the grammar outside a batch, or one that is none.
fn alone_or_syntax<R: Wait, G: Gate, B: Board>(
    means: &Means<'_, R, G>,
    control: &mut Control<B>,
    progress: &mut Progress,
    out: &mut Vec<u8>,
    said: Option<Line>,
) -> Result<Option<u32>, AllocError>
    requires written { IfSome said IsWrittenLine }
    requires few { applied_in control.old < progress.old.lines }
    requires fewer { progress.old.refused < progress.old.lines }
    requires alone { progress.old.batch ≡ None }
    ensures did { HasTurned (router_of control.old progress.old)
        (alone progress.old.lines
        (router_of control.old progress.old) said) control.old control.new progress.new out.old.items out.new.items result }
    ensures lines { progress.new.lines ≡ progress.old.lines }
    ensures asks { IfOk result (λ count. count ≡ asks_in None said) }
{
    match said {
        Some(line) => alone(means, control, progress, out, line),
        None => {
            progress.refuse();
            put_message(out, progress.lines(), "syntax")?;
            Ok(None)
        }
    }
}

// A line that was read, which is counted first.
fn run<R: Wait, G: Gate, B: Board>(
    means: &Means<'_, R, G>,
    control: &mut Control<B>,
    progress: &mut Progress,
    out: &mut Vec<u8>,
    said: Option<Line>,
) -> Result<Option<u32>, AllocError>
    requires written { IfSome said IsWrittenLine }
    requires few { applied_in control.old ≤ progress.old.lines }
    requires most { progress.old.lines < 2 ^ 32 - 1 }
    ensures did { HasTurned (router_of control.old progress.old)
        (turn_in progress.old.batch (progress.old.lines + 1)
        (router_of control.old progress.old) said) control.old control.new progress.new out.old.items out.new.items result }
    ensures asks { IfOk result (λ count. count ≡ asks_in progress.old.batch said) }
    ensures lines { progress.new.lines ≡ progress.old.lines + 1 }
{
    match progress.next_line() {
        Some(batch) => {
            within(means, control, progress, batch, out, said)?;
            Ok(None)
        }
        None => alone_or_syntax(means, control, progress, out, said),
    }
}

/// Does what a line says, and appends what it prints. Lines are numbered from 1: this one's number is that of the lines so far and one. As many
/// changes were made as lines were run, or fewer.
///
/// Answers how many packets the line asks for: Some exactly at a line that forwards packets, outside a batch. It changes nothing and
/// prints nothing.
///
/// The gate is told the version that a change would give before it is tried, and after it was accepted; a batch is one change. Then come at most
/// `walk` turns, a scan and a retry. Lookups and listings settle first, which may wait for passes that run. Workers may be out: nothing is done to
/// them. After want of memory the tables are those before the line or those after it, and the history is that of their versions.
#[tactic(auto, unfolding(crate::specs::Turns::turn_of, crate::specs::Turns::asks))]
pub fn run_line<R: Wait, G: Gate, B: Board>(
    means: &Means<'_, R, G>,
    control: &mut Control<B>,
    progress: &mut Progress,
    out: &mut Vec<u8>,
    line: &[u8],
) -> Result<Option<u32>, AllocError>
    requires few { applied_in control.old ≤ progress.old.lines }
    requires most { progress.old.lines < 2 ^ 32 - 1 }
    ensures router { OnOk result (router_of control.new progress.new
        ≡ (turn_of (progress.old.lines + 1) (router_of control.old progress.old) line.now).0) }
    ensures text { OnOk result (out.new.items ≡ out.old.items ++
        (turn_of (progress.old.lines + 1) (router_of control.old progress.old) line.now).1) }
    ensures asks { IfOk result (λ count. count ≡ asks (router_of control.old progress.old) line.now) }
    ensures stands { Stands control.new (router_of control.old progress.old)
        (turn_of (progress.old.lines + 1) (router_of control.old progress.old) line.now).0 }
    ensures grown { HasGrown control.old control.new }
    ensures lines { OnOk result (progress.new.lines ≡ progress.old.lines + 1) }
    ensures few { OnOk result (applied_in control.new ≤ progress.new.lines) }
    ensures keeps { KeepsCrew control.old control.new }
{
    let said = said(means.alloc, line)?;
    run(means, control, progress, out, said)
}

/// Appends what the script's end prints: the `begin` of a batch that it leaves is refused. Answers how many lines are refused in all.
#[tactic(auto, unfolding(crate::specs::Turns::end_turn))]
pub fn finish(progress: &Progress, out: &mut Vec<u8>) -> Result<u32, AllocError>
    ensures refused { IfOk result (λ n. (c : ControlValue) → n ≡ (end_turn (router_of c progress.now)).0.refused) }
    ensures text { OnOk result ((c : ControlValue) → out.new.items ≡ out.old.items ++ (end_turn (router_of c progress.now)).1) }
{
    match progress.begun() {
        Some(begun) => {
            // The type's invariant tells, once a field is used, that fewer lines were refused than run.
            let _lines = progress.lines();
            put_batch(out, begun, BatchFault::NotCommitted)?;
            Ok(progress.refused() + 1)
        }
        None => Ok(progress.refused()),
    }
}
