// Whose hosts are to be found: those whose cover turns.
ghost use Rattle.std.specs.Prelude.{◌≡◌, ◌↔◌, ◌++◌, Some, IfOk, OnOk, option_map, option_to_list};
ghost use Rattle.fib_resolve.specs.declared.types.Tables.{Tables as TablesValue};
ghost use Rattle.fib_entries_rows.specs.Known.{StandsFor};
ghost use Rattle.fib_follow_looked.specs.Looks.{AreAsks, AreShorts, AreTurns, IsAsk, IsTurn};
ghost use Rattle.fib_follow_looked.specs.declared.ask.Ask.{Ask as AskValue};
ghost use Rattle.fib_follow_looked.specs.declared.ask.Ask.TheVariants as asked;
ghost use Rattle.fib_follow_looked.specs.inner.Turning.{subject};

use crate::shorts::{Shorts, Turn, Turned};
use fib_addr::Prefix;
use fib_follow_view::Before;
use std::alloc::{AllocError, Global};

/// Asks for hosts that have a pair of a neighbor or of a next hop.
#[derive(Clone, Copy, Debug)]
pub enum Ask {
    /// Those whose cover that was.
    Under(Prefix),
    /// Those of them that lie in a prefix.
    Inside { cover: Prefix, prefix: Prefix },
}

fn inside(cover: Option<Prefix>, prefix: Prefix) -> Option<Ask>
    ensures { result ≡ option_map (λ c. asked.Inside c prefix) cover }
{
    match cover {
        Some(cover) => Some(Ask::Inside { cover, prefix }),
        None => None,
    }
}

/// Whose hosts are to be found as the prefix turns so.
fn ask_of(before: &Before<'_>, turned: Turned) -> Option<Ask>
    ensures { (S T : TablesValue) → StandsFor before.now S → IsTurn S T turned.prefix turned.how
        → (x : AskValue) → (result ≡ Some x) ↔ IsAsk S T x × (subject x ≡ turned.prefix) }
{
    let q = turned.prefix;
    match turned.how {
        Turn::Comes => inside(before.order().longest(q.bits(), q.len()), q),
        Turn::Goes | Turn::Attaches => Some(Ask::Under(q)),
    }
}

fn push_ask(out: &mut Vec<Ask>, ask: Option<Ask>) -> Result<(), AllocError>
    ensures { OnOk result (out.new.items ≡ out.old.items ++ option_to_list ask) }
{
    match ask {
        Some(found) => {
            out.push(found)?;
            Ok(())
        }
        None => Ok(()),
    }
}

fn asks_of(alloc: Global, before: &Before<'_>, turned: &[Turned]) -> Result<Vec<Ask>, AllocError>
    ensures { IfOk result (λ v. (S T : TablesValue) → StandsFor before.now S → AreTurns S T turned.now → AreAsks S T v.items) }
{
    let mut out = Vec::new(alloc);
    'turned: for place in 0..turned.len() {
        push_ask(&mut out, ask_of(before, turned[place]))?;
    }
    Ok(out)
}

/// Whose hosts are to be found beside those that changes name: all whose pairs can be others since their cover turns. An error means that
/// memory ran out.
pub fn asks(alloc: Global, before: &Before<'_>, shorts: &Shorts) -> Result<Vec<Ask>, AllocError>
    ensures { IfOk result (λ v. (S T : TablesValue) → StandsFor before.now S → AreShorts S T shorts.now → AreAsks S T v.items) }
{
    asks_of(alloc, before, shorts.turned.as_slice())
}
