// Laws of steady traffic. Each is the contract of a call without a body.
ghost use Rattle.std.specs.Prelude.{ℕ, List, [], Contains, Some, ◌<◌, ◌^◌, ◌≡◌, ◌∷◌};
ghost use Rattle.fib_addr.specs.Prefixes.{Prefix};
ghost use Rattle.fib_resolve.specs.Resolution.{resolve};
ghost use Rattle.fib_resolve.specs.Tables.{IsSound};
ghost use Rattle.fib_resolve.specs.declared.types.End.{End};
ghost use Rattle.fib_resolve.specs.declared.types.Tables.{Tables};
ghost use Rattle.fib_core.specs.Walk.{Arrives, IsFlow, after, balance, ply, root};
ghost use Rattle.fib_core.specs.Union.{Union};
ghost use Rattle.fib_core_steady.specs.Aims.{BestAlike};
ghost use Rattle.fib_core_steady.specs.Names.{IsBelow, IsWalked, Names};
ghost use Rattle.fib_core_steady.specs.Promise.{IsPromised, KeepsPlies};

/// What is promised for some versions is promised for more.
pub fn more_versions_ask_less()
    ensures { (few more : List Tables) → ((S : Tables) → Contains few S → Contains more S)
        → (n : Names) (u : Union) → IsPromised few n u → IsPromised more n u }
{}

/// What is promised for one version is that a walk over the cells ends as resolution says.
pub fn one_version_is_answered()
    ensures { (tables : Tables) → IsSound tables → (n : Names) (u : Union) → IsPromised (tables ∷ []) n u
        → (a h : ℕ) → IsFlow a h → (end : End) → Arrives u.cells a h root end → end ≡ resolve tables a h }
{}

/// From the root, and from each ply into which the union leads and whose path the address has, the plies lead to the
/// balance of the one entry that is best for it in all versions.
pub fn plies_reach_the_entry()
    ensures { (J : List Tables) (n : Names) (u : Union) (a h x : ℕ) (e : Prefix) → KeepsPlies J n u
        → a < 2 ^ 32 → BestAlike J a e → IsWalked u x → IsBelow a (n.depth x) (n.value x)
        → (k : ℕ) × (o : ℕ) × (after u.cells a h k (ply x (n.depth x)) ≡ balance o 0) × (n.balance e ≡ Some o) }
{}
