// Workers' seats leave the board and come home.
use crate::board::LiveBoard;
use crate::seats::{Note, WorkerSeat};
use crate::table::{BringHome, MakeNote, Pick, Recall, SendOut};
use fib_core_board::Crew;
use fib_core_lawful::{pass_word, version_word};

impl<'a> Crew for LiveBoard<'a> {
    type Seat = WorkerSeat<'a>;

    type Note = Note;

    ghost seated = { λ s. s };

    ghost noted = { λ n. n };

    fn worker(&mut self, number: u32) -> WorkerSeat<'a> {
        let cells = self.cells;
        let shared = &cells.words.shared;
        shared.load::<Pick>(&mut self.place, pass_word(number));
        let place = shared.split_seat::<SendOut>(&mut self.place);
        self.out[number as usize] = true;
        WorkerSeat {
            cells,
            place,
            number,
            pass: self.rests[number as usize],
            knows: self.version,
            left: u32::MAX,
        }
    }

    fn home(&mut self, seat: WorkerSeat<'a>) {
        let WorkerSeat {
            cells: _,
            place,
            number,
            pass,
            knows: _,
            left,
        } = seat;
        let shared = &self.cells.words.shared;
        shared.join_seat::<BringHome>(&mut self.place, place);
        // A join tells nothing of the rule: the load tells that what came home is right.
        shared.load::<Recall>(&mut self.place, version_word());
        self.out[number as usize] = false;
        self.rests[number as usize] = pass;
        self.gathered += (u32::MAX - left) as u64;
    }

    fn note(&mut self) -> Note {
        let shared = &self.cells.words.shared;
        let place = shared.split_seat::<MakeNote>(&mut self.place);
        Note {
            place,
            version: self.version,
        }
    }

    fn is_out(&self, number: u32) -> bool {
        self.out[number as usize]
    }

    fn gathered(&self) -> u64 {
        self.gathered
    }
}
