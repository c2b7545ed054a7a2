// Tables with what is kept for checks of them: changes, and turns until nothing waits.
ghost use Rattle.std.specs.Prelude.{◌≡◌, ◌<◌, ◌≤◌, ℕ, [], IfOk, None, Some, OnOk, true, false};
ghost use Rattle.fib_config.specs.Config.{Setup};
ghost use Rattle.fib_entries_rows.specs.Known.{StandsFor, rank_of};
ghost use Rattle.fib_resolve.specs.Edits.{edited};
ghost use Rattle.fib_resolve.specs.Reachable.{IsWritten};
ghost use Rattle.fib_resolve.specs.Refusals.{refused};
ghost use Rattle.fib_resolve.specs.Tables.{fresh};
ghost use Rattle.fib_urpf.specs.Kept.{IsFor};
ghost use Rattle.fib_urpf.specs.ReversePath.{loose, strict};
ghost use Rattle.fib_checker.specs.Ready.{IsChanged, IsReady};

use fib_addr::Addr;
use fib_config::Config;
use fib_entries::{ChangeError, Entries, change_tables};
use fib_resolve::{Edit, Refusal, Tables};
use fib_urpf::Urpf;
use std::alloc::{AllocError, Global};

/// The most objects that tables may take.
pub const ROOM: u32 = 8192;

/// More turns than one change asks for: each takes another prefix, which is an entry before the change or after it.
const MOST_TURNS: u32 = 16_385;

/// Tables, their entries, and the interfaces that are kept of each entry.
pub struct Checker {
    pub config: Config,
    pub entries: Entries,
    pub urpf: Urpf,
}

// The prover follows what a drop does here, once, and not at every way out past an owner.
impl Drop for Checker {
    fn drop(self) {
        let Checker {
            config: _,
            entries: _,
            urpf: _,
        } = self;
    }
}

/// Turns until nothing waits for one.
pub fn settle(tables: &Tables, entries: &Entries, urpf: &mut Urpf) -> Result<(), AllocError>
    requires stands { StandsFor entries.now tables.now }
    requires kept { IsFor urpf.old tables.now (rank_of entries.now.rows) }
    ensures kept { IsFor urpf.new tables.now (rank_of entries.now.rows) }
    ensures quiet { OnOk result (urpf.new.queue ≡ []) }
{
    for _ in 0..MOST_TURNS {
        let Some(_) = urpf.turn(tables, entries)? else {
            return Ok(());
        };
    }
    // Not reached: that many turns are more than one change asks for.
    Err(AllocError)
}

/// How all tables begin.
pub fn begin(alloc: Global) -> Result<Checker, AllocError>
    ensures { IfOk result (IsReady fresh) }
{
    let config = Config::new(alloc, ROOM)?;
    let entries = Entries::new(alloc)?;
    let mut urpf = Urpf::new(alloc, config.tables(), &entries)?;
    settle(config.tables(), &entries, &mut urpf)?;
    Ok(Checker {
        config,
        entries,
        urpf,
    })
}

/// Makes a change, and has all that is kept follow it; or says why it is refused, and then the tables are as before.
pub fn change(checker: &mut Checker, edit: &Edit) -> Result<Option<Refusal>, AllocError>
    requires ready { IsReady checker.old.config.tables checker.old }
    requires written { IsWritten edit.now }
    ensures { IfOk result (λ why. IsChanged checker.old.config.tables edit.now why checker.new) }
{
    match change_tables(&mut checker.config, &mut checker.entries, edit, ROOM) {
        Ok(followed) => {
            let tables = checker.config.tables();
            checker
                .urpf
                .follow(&followed.touched, tables, &checker.entries)?;
            settle(tables, &checker.entries, &mut checker.urpf)?;
            Ok(None)
        }
        Err(ChangeError::Refused(refusal)) => Ok(Some(refusal)),
        Err(ChangeError::TooMany(_)) => Ok(Some(Refusal::TooLarge)),
        Err(ChangeError::Memory) => Err(AllocError),
    }
}
