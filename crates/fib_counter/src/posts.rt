// Workers at posts, each in a thread of its own with a seat to count by.
ghost use Rattle.std.specs.Prelude.{◌≡◌, ◌<◌, ◌≤◌, ◌+◌, ◌^◌, ◌++◌, [], ℕ, All, true, length, map, slice_index_or, vec_capacity};
ghost use Rattle.std.specs.List.{AllByRecursion};
ghost use Rattle.fib_worker_crew.specs.Taking.{frames_taken, packets_taken};
ghost use Rattle.fib_counts.specs.Counts.{outs};
ghost use Rattle.fib_rounds_homing.specs.Stations.{IsReadyFor};
ghost use Rattle.fib_counter.specs.declared.posts.Post.{Post as PostValue};
ghost use Rattle.fib_counter.specs.inner.Posts.{HasCounted, HasWorkedPost, IsCountedPost, IsFreshPost, IsReadyPost, counted_by, station_of};

use crate::counting::count_frames;
use fib_capture::Capture;
use fib_counts::{CountSeat, Keeper};
use fib_outside::Gate;
use fib_rounds_homing::{Station, work_at};
use fib_worker_crew::Taken;
use std::alloc::Global;
use std::thread::{Threads, for_each_mut};

/// A worker at its station, and the seat by which the ends of its results are counted.
#[derive(Drop)]
pub struct Post<'a, 'b> {
    pub station: Station<'a>,
    pub seat: CountSeat<'b>,
    /// Whether all results were counted.
    pub counted: bool,
}

// A post's worker works, and its results are counted.
fn work_post<'a, 'b, G: Gate>(
    alloc: Global,
    packets: &Capture,
    taken: Taken,
    gate: &G,
    post: &mut Post<'a, 'b>,
)
    requires order { taken.first ≤ taken.to }
    requires inside { taken.to ≤ length packets.now.packets }
    requires ready { IsReadyFor packets.now taken post.old.station }
    ensures { HasWorkedPost taken.opened taken.first taken.base (packets_taken packets.now taken) post.old post.new }
{
    work_at(alloc, packets, taken, gate, &mut post.station);
    post.counted = count_frames(&mut post.seat, &post.station.frames);
}

/// Each post's worker works in a thread of its own, and its results are counted there.
pub fn work_posts<'a, 'b, R: Threads + Sync, G: Gate>(
    rt: &R,
    alloc: Global,
    packets: &Capture,
    taken: Taken,
    gate: &G,
    posts: &mut [Post<'a, 'b>],
)
    requires order { taken.first ≤ taken.to }
    requires inside { taken.to ≤ length packets.now.packets }
    requires ready { All (IsReadyPost taken.opened (frames_taken packets.now taken)) posts.old }
    ensures long { length posts.new ≡ length posts.old }
    ensures each { (i : ℕ) (d : PostValue) → i < length posts.old → HasWorkedPost taken.opened taken.first taken.base
        (packets_taken packets.now taken) (slice_index_or posts.old i d) (slice_index_or posts.new i d) }
{
    for_each_mut(
        rt,
        posts,
        8,
        &|_, post: &mut Post| -> ()
            requires { (taken.first ≤ taken.to) × (taken.to ≤ length packets.now.packets)
                × IsReadyFor packets.now taken post.now.station }
            ensures { HasWorkedPost taken.opened taken.first taken.base
                (packets_taken packets.entry.now taken) post.entry.now post.exit.now }
        { work_post(alloc, packets, taken, gate, post) },
    );
}

// A post for a station, with a seat of its own.
fn posted<'a, 'b>(keeper: &mut Keeper<'b>, station: Station<'a>) -> Post<'a, 'b>
    requires few { outs keeper.old.out < 8 }
    requires room { length keeper.old.tally < 2 ^ 60 }
    ensures station { result.station ≡ station.entry }
    ensures fresh { IsFreshPost keeper.old.id result }
    ensures out { outs keeper.new.out ≡ outs keeper.old.out + 1 }
    ensures tally { keeper.new.tally ≡ keeper.old.tally }
    ensures id { keeper.new.id ≡ keeper.old.id }
{
    Post {
        station,
        seat: keeper.seat(),
        counted: false,
    }
}

/// A post for each station, in order. There is room for them, and there are enough seats. Takes no memory.
pub fn muster<'a, 'b>(
    keeper: &mut Keeper<'b>,
    crew: Vec<Station<'a>>,
    posts: &mut Vec<Post<'a, 'b>>,
)
    requires none { posts.old.items ≡ [] }
    requires place { length crew.items ≤ vec_capacity posts.old }
    requires few { outs keeper.old.out + length crew.items ≤ 8 }
    requires room { length keeper.old.tally < 2 ^ 60 }
    ensures stations { map station_of posts.new.items ≡ crew.entry.items }
    ensures fresh { AllByRecursion (IsFreshPost keeper.old.id) posts.new.items }
    ensures out { outs keeper.new.out ≡ outs keeper.old.out + length crew.entry.items }
    ensures tally { keeper.new.tally ≡ keeper.old.tally }
    ensures id { keeper.new.id ≡ keeper.old.id }
{
    for station in crew {
        let post = posted(keeper, station);
        posts.push_reserved(post);
    }
}

fn all_of(a: bool, b: bool, c: bool) -> bool
    ensures { result ≡ true → (a ≡ true) × (b ≡ true) × (c ≡ true) }
{
    a && b && c
}

/// The seats come home, and the stations are given back in order. There is room for them. Answers whether each worker came to the round's end and all its
/// results were counted.
pub fn dismiss<'a, 'b>(
    keeper: &mut Keeper<'b>,
    posts: Vec<Post<'a, 'b>>,
    crew: &mut Vec<Station<'a>>,
) -> bool
    requires none { crew.old.items ≡ [] }
    requires place { length posts.items ≤ vec_capacity crew.old }
    requires counted { AllByRecursion (IsCountedPost keeper.old.id) posts.items }
    ensures stations { crew.new.items ≡ map station_of posts.entry.items }
    ensures counted { result ≡ true → AllByRecursion HasCounted posts.entry.items }
    ensures tally { keeper.new.tally ≡ keeper.old.tally ++ counted_by posts.entry.items }
    ensures out { outs keeper.new.out + length posts.entry.items ≡ outs keeper.old.out }
{
    let mut all = true;
    for post in posts {
        let Post {
            station,
            seat,
            counted,
        } = post;
        keeper.home(seat);
        all = all_of(all, counted, station.done);
        crew.push_reserved(station);
    }
    all
}
