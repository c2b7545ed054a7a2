// The texts of loads.
ghost use Rattle.std.specs.Prelude.{◌≡◌, ◌++◌, IfOk, OnErr, OnOk, codes, decimal};
ghost use Rattle.fib_trace.specs.Texts.{load_text, place_text, word_text};

use crate::load::Load;
use fib_core::Word;
use fib_print::{put_end, put_number};
use fib_resolve::{End, Tables};
use std::alloc::{AllocError, Global};

// A word and a number.
fn put_numbered(out: &mut Vec<u8>, word: &str, number: u64) -> Result<(), AllocError>
    ensures { OnOk result (out.new.items ≡ out.old.items ++ (word.now ++ decimal number)) }
{
    out.extend_from_slice(word.as_bytes())?;
    put_number(out, number)
}

// What was found in a cell.
fn put_word(out: &mut Vec<u8>, tables: &Tables, word: Word) -> Result<(), AllocError>
    ensures { OnOk result (out.new.items ≡ out.old.items ++ word_text tables.now word) }
{
    match word {
        Word::Drop => put_end(out, tables, &End::Drop),
        Word::Receive => put_end(out, tables, &End::Receive),
        Word::Glean(interface) => put_end(out, tables, &End::Glean(interface)),
        Word::ToPly(object) => put_numbered(out, "ply ", u64::from(object)),
        Word::ToBalance(object) => put_numbered(out, "balance ", u64::from(object)),
        Word::ToAdjacency(object) => put_numbered(out, "adjacency ", u64::from(object)),
        Word::Plain(number) => put_numbered(out, "plain ", number),
    }
}

// Which load it is, and of which cell.
#[tactic(auto, unfolding(crate::specs::Texts::place_text))]
fn put_place(out: &mut Vec<u8>, number: u32, object: u32, slot: u32) -> Result<(), AllocError>
    ensures { OnOk result (out.new.items ≡ out.old.items ++ place_text number object slot) }
{
    put_numbered(out, "hop ", u64::from(number))?;
    put_numbered(out, " object ", u64::from(object))?;
    put_numbered(out, " slot ", u64::from(slot))?;
    out.extend_from_slice(" ".as_bytes())
}

// The whole line.
#[tactic(auto, unfolding(crate::specs::Texts::load_text))]
fn line_of(alloc: Global, tables: &Tables, number: u32, load: &Load) -> Result<Vec<u8>, AllocError>
    ensures { IfOk result (λ line. line.items ≡ load_text tables.now number load.now) }
{
    let mut line = Vec::new(alloc);
    put_place(&mut line, number, load.object, load.slot)?;
    put_word(&mut line, tables, load.word)?;
    line.extend_from_slice("\n".as_bytes())?;
    Ok(line)
}

/// Appends the line of a load: `hop K object O slot S WORD`, K being its number in its pass and WORD `drop`, `receive`, `glean NAME`, `ply N`,
/// `balance N`, `adjacency N` or `plain N`, and a line feed. The name of an interface that the tables lack is empty. Unchanged on want of memory.
pub fn put_load(
    out: &mut Vec<u8>,
    tables: &Tables,
    number: u32,
    load: &Load,
) -> Result<(), AllocError>
    ensures ok { OnOk result (out.new.items ≡ out.old.items ++ load_text tables.now number load.now) }
    ensures err { OnErr result (out.new.items ≡ out.old.items) }
{
    let line = line_of(*out.allocator(), tables, number, load)?;
    out.extend_from_slice(&line)
}
