// The sixteen buckets of one object.
ghost use Rattle.std.specs.Prelude.{◌≡◌, ◌≤◌, ◌+◌, ◌⊎◌, ℕ, Option, length};
ghost use Rattle.fib_addr.specs.Prefixes.{Prefix};
ghost use Rattle.fib_core_steady.specs.Names.{Names};
ghost use Rattle.fib_plane_view.specs.Frames.{IsQuiet};
ghost use Rattle.fib_plane_view.specs.Promise.{Allows, IsBegun};
ghost use Rattle.fib_plane_view.specs.Stores.{IsFreed, StoresEach};
ghost use Rattle.fib_plane_view.specs.View.{IsBalance, IsLive};
ghost use Rattle.fib_stack.specs.Runs.{AreReady, Puts};

use fib_core::Word;
use fib_plane_view::{Objects, Put};

/// Puts a word into each bucket of a balance, in order, and answers what each put did. There must be room for sixteen stores.
pub fn fill<P: Objects>(on: &mut P, object: u32, words: &[Word; 16]) -> [Put; 16]
    requires allowed { Allows (P.promise on.old) }
    requires begun { IsBegun (P.promise on.old) }
    requires balance { IsBalance (P.view on.old) object }
    requires spare { 16 ≤ (P.view on.old).spare }
    requires ready { (n : Names) × AreReady (P.promise on.old) n (P.view on.old) object 0 words.now }
    ensures puts { Puts (P.view on.old) object 0 words.now result (P.view on.new) }
    ensures stores { StoresEach (λ y k. (y ≡ object) ⊎ IsFreed (P.view on.old) (P.view on.new) y) (P.view on.old) (P.view on.new) }
    ensures alive { (y : ℕ) → IsLive (P.view on.new) y → IsLive (P.view on.old) y }
    ensures ready { (n : Names) → AreReady (P.promise on.old) n (P.view on.old) object 0 words.now
        → AreReady (P.promise on.old) n (P.view on.new) object 16 words.now }
    ensures quiet { (look : Prefix → Option ℕ) → IsQuiet look (P.view on.old) (P.view on.new) }
    ensures balance { IsBalance (P.view on.new) object }
    ensures spare { (P.view on.old).spare ≤ (P.view on.new).spare + 16 }
    ensures promise { P.promise on.new ≡ P.promise on.old }
{
    let mut answers = [Put::Same; 16];
    for slot in 0..16u32 {
        answers[slot as usize] = on.put(object, slot, words[slot as usize]);
    }
    answers
}
