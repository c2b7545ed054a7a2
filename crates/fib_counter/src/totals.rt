// The lines of totals.
ghost use Rattle.std.specs.Prelude.{◌≡◌, ◌<◌, ◌++◌, OnOk, codes, decimal};
ghost use Rattle.fib_core_lawful.specs.Claims.{times};
ghost use Rattle.fib_counts.specs.Counts.{outs};
ghost use Rattle.fib_print.specs.Ends.{name_of};
ghost use Rattle.fib_counter.specs.CountOutput.{all_totals, class_text, total_line};

use fib_counts::Keeper;
use fib_print::{name_at, put_number, put_text};
use fib_resolve::Tables;
use std::alloc::AllocError;

// How many words there are.
const WORDS: u32 = 770;

// Appends a kind of ends and the name of their interface.
fn put_on(out: &mut Vec<u8>, kind: &str, tables: &Tables, interface: u32) -> Result<(), AllocError>
    ensures { OnOk result (out.new.items ≡ out.old.items ++ (kind.now ++ name_of tables.now interface ++ codes " ")) }
{
    put_text(out, kind)?;
    out.extend_from_slice(name_at(tables, interface))?;
    put_text(out, " ")
}

// Appends what the word of that number counts.
#[tactic(auto, unfolding(crate::specs::CountOutput::class_text))]
fn put_class(out: &mut Vec<u8>, tables: &Tables, word: u32) -> Result<(), AllocError>
    ensures { OnOk result (out.new.items ≡ out.old.items ++ class_text tables.now word) }
{
    if word == 0 {
        put_text(out, "drop ")
    } else if word == 1 {
        put_text(out, "receive ")
    } else if word < 258 {
        put_on(out, "glean ", tables, word - 2)
    } else if word < 514 {
        put_on(out, "adj ", tables, word - 258)
    } else {
        put_on(out, "incomplete ", tables, word - 514)
    }
}

// Appends the line of a total that isn't 0.
#[tactic(auto, unfolding(crate::specs::CountOutput::total_line))]
fn put_total(out: &mut Vec<u8>, tables: &Tables, word: u32, total: u64) -> Result<(), AllocError>
    ensures { OnOk result (out.new.items ≡ out.old.items ++ total_line tables.now word total) }
{
    if total == 0 {
        return Ok(());
    }
    put_class(out, tables, word)?;
    put_number(out, total)?;
    put_text(out, "\n")
}

/// Appends a line for each total that isn't 0, in the order of the words. No seat may be out.
pub fn put_totals(
    out: &mut Vec<u8>,
    tables: &Tables,
    keeper: &mut Keeper<'_>,
) -> Result<(), AllocError>
    requires { outs keeper.old.out ≡ 0 }
    ensures { OnOk result (out.new.items ≡ out.old.items ++ all_totals tables.now (λ w. times w keeper.old.tally)) }
{
    for word in 0..WORDS {
        let total = keeper.total(word);
        put_total(out, tables, word, total)?;
    }
    Ok(())
}
