// What the prefix table asks of its set of prefixes.
ghost use Rattle.std.specs.Prelude.{◌≡◌, ℕ, ◌+◌, ◌*◌, ◌^◌, ◌<◌, ◌≤◌, ◌↔◌, None, IsTrue};
ghost use Rattle.fib_core_promise.specs.Matches.{best_block};
ghost use Rattle.fib_ply.specs.inner.Change.{added, removed};
ghost use Rattle.fib_ply.specs.Prefixes.{Look, Needs};

/// Prefixes with their objects, by length and first bits.
pub trait Prefixes {
    // The object of each prefix.
    ghost look: { Self → Look };

    // For how many more there is room.
    ghost room: { Self → ℕ };

    /// The object of the longest prefix that contains the block of the first `len` bits `top`.
    fn best(&self, len: u32, top: u32) -> Option<u32>
        requires len { len ≤ 32 }
        requires top { top < 2 ^ len }
        ensures { result ≡ best_block (look self.now) len top };

    /// Whether a prefix longer than four times the depth lies in that block of the depth.
    fn needs(&self, depth: u32, value: u32) -> bool
        requires depth { depth ≤ 7 }
        requires value { value < 2 ^ (4 * depth) }
        ensures { IsTrue result ↔ Needs (look self.now) depth value };

    /// Takes a prefix in.
    fn insert(&mut self, len: u32, top: u32, object: u32)
        requires len { len ≤ 32 }
        requires top { top < 2 ^ len }
        requires absent { look self.old len top ≡ None }
        requires room { 0 < room self.old }
        ensures look { look self.new ≡ added (look self.old) len top object }
        ensures room { room self.old ≤ room self.new + 1 };

    /// Takes a prefix out.
    fn remove(&mut self, len: u32, top: u32)
        requires len { len ≤ 32 }
        requires top { top < 2 ^ len }
        ensures look { look self.new ≡ removed (look self.old) len top }
        ensures room { room self.old ≤ room self.new };
}
