// The entries follow an edit of the tables.
ghost use Rattle.std.specs.Prelude.{◌≡◌, ◌<◌, ◌^◌, ◌-◌, ℕ, IfErr, IfOk, None, OnErr, OnOk};
ghost use Rattle.fib_resolve.specs.Edits.{edited};
ghost use Rattle.fib_resolve.specs.Reachable.{IsWritten};
ghost use Rattle.fib_resolve.specs.Refusals.{first_reason, reasons, refused};
ghost use Rattle.fib_resolve.specs.Sizes.{size};
ghost use Rattle.fib_resolve.specs.declared.types.Edit.{Edit as EditValue};
ghost use Rattle.fib_resolve.specs.declared.types.Tables.{Tables as TablesValue};
ghost use Rattle.fib_config.specs.Config.{TellsRefusal};
ghost use Rattle.fib_entries_rows.specs.Changes.{IsFollowed, IsTooMany};
ghost use Rattle.fib_entries_rows.specs.Known.{StandsFor};
ghost use Rattle.fib_entries.specs.Following.{TellsChange};

use crate::entries::Entries;
use crate::errors::ChangeError;
use fib_config::{Config, EditError, Edited, Undo};
use fib_entries_rows::{FollowError, Followed};
use fib_resolve::Edit;

// Why an edit that is refused, whatever room it takes, makes no change.
fn own_fault(error: EditError) -> ChangeError
    ensures { (S : TablesValue) (most : ℕ) (e : EditValue) → TellsRefusal (first_reason (reasons S e)) error → TellsChange S most e result }
{
    match error {
        EditError::Refused(refusal) => ChangeError::Refused(refusal),
        EditError::Memory => ChangeError::Memory,
    }
}

// Why the entries don't follow an edit that has no reason of its own.
fn fault(error: FollowError) -> ChangeError
    ensures { (S : TablesValue) (most : ℕ) (e : EditValue) → first_reason (reasons S e) ≡ None → IsTooMany (size (edited S e)) most error
        → TellsChange S most e result }
{
    match error {
        FollowError::TooMany(size) => ChangeError::TooMany(size),
        FollowError::Memory => ChangeError::Memory,
    }
}

// What takes an edit back isn't wanted any more.
fn forget(_undo: Undo) {}

/// Makes an edit of the tables and has the entries follow it, where the edited tables take at most so many objects; says what it touched and which
/// ranks moved. After a fault all is as before. The edit is one that a line can write.
pub fn change_tables(
    config: &mut Config,
    entries: &mut Entries,
    edit: &Edit,
    most: u32,
) -> Result<Followed, ChangeError>
    requires written { IsWritten edit.now }
    requires stands { StandsFor entries.old config.old.tables }
    requires most { most < 2 ^ 32 - 1 }
    ensures accepted { OnOk result (refused config.old.tables most edit.now ≡ None) }
    ensures edited { OnOk result (config.new ≡ record config.old { tables = edited config.old.tables edit.now }) }
    ensures followed { IfOk result (IsFollowed entries.old entries.new config.old.tables config.new.tables most) }
    ensures why { IfErr result (TellsChange config.old.tables most edit.now) }
    ensures config { OnErr result (config.new ≡ config.old) }
    ensures entries { OnErr result (entries.new ≡ entries.old) }
{
    let Edited { change, undo } = match config.change(edit) {
        Ok(edited) => edited,
        Err(error) => return Err(own_fault(error)),
    };
    match entries.follow_changes(config, &[change], most) {
        Ok(followed) => {
            forget(undo);
            Ok(followed)
        }
        Err(error) => {
            config.undo(undo);
            Err(fault(error))
        }
    }
}
