//! Laws of walks and cycles, over any nodes and any edges. Each is the contract of a call that does nothing.

ghost use Rattle.std.specs.Prelude.{◌≡◌, ℕ, suc, ◌+◌, ◌<◌, ◌≤◌, ◌⊎◌, ◌↔◌, Bool, true, IsTrue, List, length, Contains, Decides};
ghost use Rattle.std.specs.List.{AllByRecursion};
ghost use Rattle.std.specs.Set.{is_member};
ghost use Rattle.fib_reach.specs.Walks.{Walk, Reaches, Leads, IsAcyclic, HasCycle, Plus, IsPart, Next, visited, AllDiffer};
ghost use Rattle.fib_reach.specs.Search.{leads_through};
ghost use Rattle.fib_reach.specs.Graphs.{Edge, with_edge};

/// A type of nodes with the relation that says which edges are there.
pub trait Linked {
    ghost edge: { Self → Self → Type 0 };
}

/// A type of nodes with a second relation, for a part of the edges.
pub trait Partly {
    ghost part: { Self → Self → Type 0 };
}

/// A type of nodes with a test that tells them apart, and a list of the next nodes of each.
pub trait Listed {
    ghost same: { Self → Self → Bool };

    ghost next: { Self → List Self };
}

/// Walks compose: m edges and then n edges are m + n edges.
pub fn walks_compose<N: Linked>()
    ensures { (m n : ℕ) (x y z : N) → Walk N.edge m x y → Walk N.edge n y z → Walk N.edge (m + n) x z }
{}

/// Walks cut: m + n edges are m edges and then n edges.
pub fn walks_cut<N: Linked>()
    ensures { (m n : ℕ) (x z : N) → Walk N.edge (m + n) x z → (y : N) × Walk N.edge m x y × Walk N.edge n y z }
{}

/// A walk of any number of edges has none, or one or more.
pub fn leads_none_or_more<N: Linked>()
    ensures { (x y : N) → Leads N.edge x y ↔ (x ≡ y) ⊎ Reaches N.edge x y }
{}

/// An edge added to an acyclic graph closes a cycle exactly where its target is its source or reaches it.
pub fn added_edge_closes<N: Linked>()
    ensures { (x y : N) → IsAcyclic N.edge → HasCycle (Plus N.edge x y) ↔ (x ≡ y) ⊎ Reaches N.edge y x }
{}

/// Otherwise the graph stays acyclic.
pub fn added_edge_keeps<N: Linked>()
    ensures { (x y : N) → IsAcyclic N.edge → ((x ≡ y) ⊎ Reaches N.edge y x → ⊥) → IsAcyclic (Plus N.edge x y) }
{}

/// A part of an acyclic graph is acyclic.
pub fn part_is_acyclic<N: Linked + Partly>()
    ensures { IsPart N.part N.edge → IsAcyclic N.edge → IsAcyclic N.part }
{}

/// In an acyclic graph a walk visits no node twice.
pub fn walk_visits_once<N: Linked>()
    ensures { (n : ℕ) (x y : N) (w : Walk N.edge n x y) → IsAcyclic N.edge → AllDiffer (visited N.edge n x y w) }
{}

/// In an acyclic graph a walk has fewer edges than there are nodes.
pub fn walk_is_short<N: Linked>()
    ensures { (nodes : List N) (n : ℕ) (x y : N) → ((a b : N) → N.edge a b → Contains nodes b) → Contains nodes x → IsAcyclic N.edge
        → Walk N.edge n x y → n < length nodes }
{}

/// In an acyclic graph a walk has no more edges than there are nodes that edges leave.
pub fn walk_is_no_longer<N: Linked>()
    ensures { (sources : List N) (n : ℕ) (x y : N) → ((a b : N) → N.edge a b → Contains sources a) → IsAcyclic N.edge
        → Walk N.edge n x y → n ≤ length sources }
{}

/// The test by middle nodes tells whether a walk of one or more edges leads there, where each node with an edge is a middle node.
pub fn test_finds_walks<N: Listed>()
    ensures { (mids : List N) → ((x y : N) → Decides (N.same x y) (x ≡ y))
        → ((x y : N) → Contains (N.next x) y → is_member N.same mids x ≡ true) → (a b : N)
        → IsTrue (leads_through N.same N.next mids a b) ↔ Reaches (Next N.next) a b }
{}

/// Rounds that only add, each made from the one before, change nothing after as many rounds as there are nodes.
pub fn rounds_come_to_rest<N>()
    ensures { (passes : ℕ → N → Bool) (nodes : List N) → ((k : ℕ) (x : N) → passes k x ≡ true → passes (suc k) x ≡ true)
        → ((k : ℕ) → AllByRecursion (λ x. passes k x ≡ passes (suc k) x) nodes
        → AllByRecursion (λ x. passes (suc k) x ≡ passes (suc (suc k)) x) nodes) → (n : ℕ) → length nodes ≤ n
        → AllByRecursion (λ x. passes n x ≡ passes (suc n) x) nodes }
{}

/// A graph with one edge more has the edges of before and that one.
pub fn edge_is_added()
    ensures { (g : List (List ℕ)) (from to x y : ℕ) → from < length g → Edge (with_edge g from to) x y ↔ Plus (Edge g) from to x y }
{}
