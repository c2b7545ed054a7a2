// Tables with their entries, and what is kept for checks of them.
ghost use Rattle.std.specs.Prelude.{◌≡◌, [], IfOk, OnOk, false, true};
ghost use Rattle.fib_resolve.specs.Reachable.{IsWritten};
ghost use Rattle.test_urpf.specs.Rigs.{IsRigged};

use fib_commands::{Line, read_line};
use fib_config::Config;
use fib_entries::{ChangeError, Entries, change_tables};
use fib_resolve::Edit;
use fib_urpf::Urpf;
use std::alloc::{AllocError, Global};

/// Tables with their entries, and what is kept for checks of them.
pub struct Rig {
    pub config: Config,
    pub entries: Entries,
    pub urpf: Urpf,
}

// The prover follows what a drop does here, once, and not at every way out past an owner.
impl Drop for Rig {
    fn drop(self) {
        let Rig {
            config: _,
            entries: _,
            urpf: _,
        } = self;
    }
}

/// The tables as they begin, with all entries queued.
pub fn begin(alloc: Global) -> Result<Rig, AllocError>
    ensures { IfOk result IsRigged }
{
    let config = Config::new(alloc, 8192)?;
    let entries = Entries::new(alloc)?;
    let urpf = Urpf::new(alloc, config.tables(), &entries)?;
    Ok(Rig {
        config,
        entries,
        urpf,
    })
}

// Makes a change, unless it is refused.
fn change(rig: &mut Rig, edit: &Edit) -> Result<bool, AllocError>
    requires kept { IsRigged rig.old }
    requires written { IsWritten edit.now }
    ensures { OnOk result (IsRigged rig.new) }
{
    match change_tables(&mut rig.config, &mut rig.entries, edit, 8192) {
        Ok(followed) => {
            rig.urpf
                .follow(&followed.touched, rig.config.tables(), &rig.entries)?;
            Ok(true)
        }
        Err(ChangeError::Memory) => Err(AllocError),
        Err(_) => Ok(false),
    }
}

/// Makes the change that a line says; false where it says none, or the change is refused.
pub fn make(alloc: Global, rig: &mut Rig, line: &str) -> Result<bool, AllocError>
    requires { IsRigged rig.old }
    ensures { OnOk result (IsRigged rig.new) }
{
    match read_line(alloc, line.as_bytes()) {
        Ok(Line::Change(edit)) => change(rig, &edit),
        _ => Ok(false),
    }
}

// One turn; false where nothing is queued.
fn turn(rig: &mut Rig) -> Result<bool, AllocError>
    requires { IsRigged rig.old }
    ensures kept { OnOk result (IsRigged rig.new) }
    ensures quiet { IfOk result (λ more. more ≡ false → rig.new.urpf.queue ≡ []) }
{
    match rig.urpf.turn(rig.config.tables(), &rig.entries)? {
        Some(_) => Ok(true),
        None => Ok(false),
    }
}

/// At most so many turns.
pub fn turns(rig: &mut Rig, most: u32) -> Result<(), AllocError>
    requires { IsRigged rig.old }
    ensures { OnOk result (IsRigged rig.new) }
{
    for _turn in 0..most {
        // Whether more are queued isn't asked.
        let _more = turn(rig)?;
    }
    Ok(())
}

/// Turns until nothing is queued; false after 10,000.
pub fn settle(rig: &mut Rig) -> Result<bool, AllocError>
    requires { IsRigged rig.old }
    ensures kept { OnOk result (IsRigged rig.new) }
    ensures quiet { IfOk result (λ done. done ≡ true → rig.new.urpf.queue ≡ []) }
{
    for _turn in 0..10_000 {
        if !turn(rig)? {
            return Ok(true);
        }
    }
    Ok(false)
}
