// The words, and the control plane's seat before its work.
ghost use Rattle.std.specs.Prelude.{IfOk, replicate, ◌*◌, ◌+◌, ◌≡◌};
ghost use Rattle.fib_core_board.specs.Told.{IsWithinLimits};
ghost use Rattle.fib_cells.specs.Seats.{fresh_live, id_in};

use crate::table::{Place, Room, Words};
use fib_core_lawful::words_for;
use std::alloc::{AllocError, Global};
use std::marker::Model;

/// The words that all seats share: the version, the pass words, the claim word, each in a cache line of its own, and the cells.
#[derive(Drop)]
pub struct Cells {
    pub(crate) words: Words,
}

/// The control plane's seat on a fresh table, with its copy of the cells. Contracts see the board that it is.
#[derive(Drop)]
pub struct ControlSeat {
    pub(crate) place: Place,
    pub(crate) copy: Vec<u64>,
    pub(crate) objects: u32,
    pub(crate) workers: u32,
}

impl Model for ControlSeat {
    ghost use Rattle.std.specs.Prelude.{[], replicate, ◌*◌, ◌+◌, ◌≡◌};
    ghost use Rattle.fib_core_lawful.specs.Layout.{words_for};
    ghost use Rattle.fib_core_lawful.specs.State.{control, first_control};
    ghost use Rattle.fib_core_board.specs.Boards.{Board};
    ghost use Rattle.fib_core_board.specs.Told.{IsWithinLimits};
    ghost use Rattle.fib_cells.specs.Seats.{fresh_live, id_of};

    ghost Value = { Board };

    ghost view = { λ s. fresh_live (id_of s.place.table_id) s.objects s.workers };

    ghost invariant = { λ s. IsWithinLimits s.objects s.workers × (s.place.table_id.words ≡ words_for s.objects)
        × (s.place.me ≡ (control (first_control s.objects s.workers), [])) × (s.copy.items ≡ replicate (16 * s.objects) 0) };
}

// That many words, each 0.
fn zeros(alloc: Global, count: usize) -> Result<Vec<u64>, AllocError>
    ensures { IfOk result (λ v. v.items ≡ replicate count 0) }
{
    Ok(vec![in alloc; 0; count]?)
}

impl Cells {
    /// Fresh words and their control seat: each cell says Drop, the version is (0, 0), nothing is retired and nobody is out. This takes all
    /// the memory that the cells and all seats ever need.
    ///
    /// From 64 to 131,072 objects, an even number, and from 1 to 8 workers.
    pub fn new(
        alloc: Global,
        objects: u32,
        workers: u32,
    ) -> Result<(Cells, ControlSeat), AllocError>
        requires { IsWithinLimits objects workers }
        ensures { IfOk result (λ r. r.1 ≡ fresh_live (id_in r.0) objects workers) }
    {
        let first = zeros(alloc, words_for(objects))?;
        let (words, place) = Words::of_words(alloc, first.as_slice(), &Room { objects, workers })?;
        let copy = zeros(alloc, 16 * objects as usize)?;
        let seat = ControlSeat {
            place,
            copy,
            objects,
            workers,
        };
        Ok((Cells { words }, seat))
    }
}
