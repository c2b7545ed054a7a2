// What the rows that are written get beside their pairs.
ghost use Rattle.std.specs.Prelude.{◌≡◌, ◌&&◌, false, not, IfOk, map, slice_index_or};
ghost use Rattle.fib_resolve.specs.Loops.{looped_kind};
ghost use Rattle.fib_resolve.specs.Pairs.{chosen};
ghost use Rattle.fib_resolve.specs.Resolution.{attached_end, hop_end};
ghost use Rattle.fib_resolve.specs.declared.types.Tables.{Tables as TablesValue};
ghost use Rattle.fib_entries_rows.specs.Known.{row_of};
ghost use Rattle.fib_follow_view.specs.Views.{IsAfter, made_of};
ghost use Rattle.fib_follow_view.specs.inner.Told.{chosen_in, cover_by};
ghost use Rattle.fib_follow_part.specs.Parts.{IsPart};
ghost use Rattle.fib_follow_told.specs.Told.{AreBodies, IsBody};
ghost use Rattle.fib_follow_told.specs.inner.Marks.{aim_by, counts_by, looped_row, mark_by, marks_by, met_by};

use fib_addr::{Addr, Mac, Prefix};
use fib_base_list::List;
use fib_config::Config;
use fib_follow_part::Part;
use fib_follow_view::View;
use fib_resolve::{Aim, End, Marked, Path, PathKind};
use std::alloc::{AllocError, Global};

/// What a row that is written gets beside its pairs, its dependants and its rank.
pub struct Body {
    pub prefix: Prefix,
    /// For each path of the chosen list, whether it is looped.
    pub looped: List<bool>,
    /// For each path of the chosen list, whether its need is met.
    pub met: List<bool>,
    /// For each path of the chosen list, what it is for and whether it counts.
    pub marked: List<Marked>,
}

// The prover follows what a drop does here, once, and not at every way out past an owner.
impl Drop for Body {
    fn drop(self) {
        let Body {
            prefix: _,
            looped: _,
            met: _,
            marked: _,
        } = self;
    }
}

impl Body {
    /// The looped, the met and the marked list, taken out of the body: with a Drop of its own it comes apart here alone.
    pub fn into_lists(self) -> (List<bool>, List<bool>, List<Marked>)
        ensures { result ≡ (self.looped, self.met, self.marked) }
    {
        let Body {
            prefix: _,
            looped,
            met,
            marked,
        } = self;
        (looped, met, marked)
    }
}

/// For each path of the chosen list that the prefix had, whether it was looped.
fn looped_before(alloc: Global, view: &View<'_>, e: Prefix) -> Result<Vec<bool>, AllocError>
    ensures { IfOk result (λ v. v.items ≡ looped_row (row_of view.now.before.rows e)) }
{
    match view.before().row(e) {
        Some(r) => Vec::from_slice(alloc, r.looped()),
        None => Ok(Vec::new(alloc)),
    }
}

/// For each path of the chosen list, whether it is looped. Beside the part that stays as it was.
fn loops(alloc: Global, view: &View<'_>, part: &Part, e: Prefix) -> Result<Vec<bool>, AllocError>
    ensures { IfOk result (λ v. (S T : TablesValue) → IsAfter view.now S T → IsPart view.now S T part.now
        → v.items ≡ map (λ p. looped_kind T e p.kind) (chosen T e)) }
{
    if part.has(e) {
        part.looped(alloc, view, e)
    } else {
        looped_before(alloc, view, e)
    }
}

/// Whether the path's need is met.
fn is_met(view: &View<'_>, p: &Path) -> bool
    ensures { result ≡ met_by view.now p.now }
{
    match p.kind {
        PathKind::Recursive(a) => view.is_met(p.need, a),
        _ => true,
    }
}

/// For each path of the chosen list, whether its need is met.
fn mets(alloc: Global, view: &View<'_>, paths: &[Path]) -> Result<Vec<bool>, AllocError>
    ensures { IfOk result (λ v. v.items ≡ map (met_by view.now) paths.now) }
{
    paths.iter().map(|p| is_met(view, p)).collect(alloc)
}

/// The Hop end over that interface to that next hop.
fn hop_end(config: &Config, interface: u32, next_hop: Addr) -> End
    ensures { result ≡ hop_end config.now.tables interface next_hop }
{
    End::Hop {
        interface,
        next_hop,
        mac: config.mac_of(interface, next_hop),
    }
}

/// The end of an Attached path of the prefix: a Hop to its own address where it is a host, else a glean.
fn attached_end(config: &Config, e: Prefix, interface: u32) -> End
    ensures { result ≡ attached_end config.now.tables e interface }
{
    if e.len() == 32 {
        hop_end(config, interface, e.bits())
    } else {
        End::Glean(interface)
    }
}

/// What a path of the prefix is for, where its cover is that.
fn aim_of(config: &Config, cover: &Option<Prefix>, e: Prefix, kind: PathKind) -> Aim
    ensures { result ≡ aim_by config.now.tables cover.now e kind }
{
    match kind {
        PathKind::Drop => Aim::Ends(End::Drop),
        PathKind::Local => Aim::Ends(End::Receive),
        PathKind::Attached(interface) => Aim::Ends(attached_end(config, e, interface)),
        PathKind::Hop {
            next_hop,
            interface,
        } => Aim::Ends(hop_end(config, interface, next_hop)),
        PathKind::Recursive(a) => Aim::On(Prefix::host(a)),
        PathKind::Cover => match cover {
            Some(over) => Aim::On(*over),
            None => Aim::Ends(End::Drop),
        },
    }
}

/// Whether a path is usable where its aim, if it is an entry, forwards.
fn does_count(config: &Config, view: &View<'_>, p: &Path, looped: bool) -> bool
    ensures { result ≡ counts_by config.now.tables view.now p.now.need looped p.now.kind }
{
    match p.kind {
        PathKind::Drop => false,
        PathKind::Local => true,
        PathKind::Attached(interface) => config.is_up(interface),
        PathKind::Hop { interface, .. } => config.is_up(interface),
        PathKind::Recursive(a) => !looped && view.is_met(p.need, a),
        PathKind::Cover => true,
    }
}

/// The mark of a path of the prefix, where its cover is that.
fn mark(
    config: &Config,
    view: &View<'_>,
    cover: &Option<Prefix>,
    e: Prefix,
    p: &Path,
    looped: bool,
) -> Marked
    ensures { result ≡ mark_by config.now.tables view.now cover.now e p.now looped }
{
    Marked {
        aim: aim_of(config, cover, e, p.kind),
        counts: does_count(config, view, p, looped),
        weight: p.weight,
        preference: p.preference,
    }
}

fn flag_at(flags: &[bool], place: usize) -> bool
    ensures { result ≡ slice_index_or flags.now place false }
{
    match flags.get(place) {
        Some(flag) => *flag,
        None => false,
    }
}

/// For each path of the chosen list, what it is for and whether it counts, where the prefix's cover is that.
fn marks_over(
    alloc: Global,
    config: &Config,
    view: &View<'_>,
    cover: &Option<Prefix>,
    e: Prefix,
    looped: &[bool],
) -> Result<Vec<Marked>, AllocError>
    ensures { IfOk result (λ v. v.items
        ≡ marks_by (mark_by config.now.tables view.now cover.now e) (chosen_in view.now e) looped.now) }
{
    // Named so that the proof knows the types that a mark may hold.
    let _mac: Option<Mac> = None;
    let _aim = Aim::Ends(End::Drop);
    let paths = view.chosen(e);
    let mut out = Vec::with_capacity(alloc, paths.len())?;
    'paths: for place in 0..paths.len() {
        let flag = flag_at(looped, place);
        out.push(mark(config, view, cover, e, &paths[place], flag))?;
    }
    Ok(out)
}

/// For each path of the chosen list, what it is for and whether it counts.
fn marks(
    alloc: Global,
    config: &Config,
    view: &View<'_>,
    e: Prefix,
    looped: &[bool],
) -> Result<Vec<Marked>, AllocError>
    ensures { IfOk result (λ v. v.items
        ≡ marks_by (mark_by config.now.tables view.now (cover_by view.now.before e (made_of view.now.changed e)) e) (chosen_in view.now e)
        looped.now) }
{
    let cover = view.cover(e);
    marks_over(alloc, config, view, &cover, e, looped)
}

/// What the prefix's row gets.
fn body_of(
    alloc: Global,
    config: &Config,
    view: &View<'_>,
    part: &Part,
    e: Prefix,
) -> Result<Body, AllocError>
    ensures prefix { IfOk result (λ b. b.prefix ≡ e) }
    ensures body { IfOk result (λ b. (S : TablesValue) → IsAfter view.now S config.now.tables
        → IsPart view.now S config.now.tables part.now → IsBody config.now.tables b) }
{
    let looped = loops(alloc, view, part, e)?;
    let met = mets(alloc, view, view.chosen(e))?;
    let marked = marks(alloc, config, view, e, looped.as_slice())?;
    Ok(Body {
        prefix: e,
        looped: List::from_vec(looped),
        met: List::from_vec(met),
        marked: List::from_vec(marked),
    })
}

/// What the rows of the prefixes get, in their order, where the tables after the change are the configuration's. An error means that memory
/// ran out.
pub fn bodies(
    alloc: Global,
    config: &Config,
    view: &View<'_>,
    part: &Part,
    list: &[Prefix],
) -> Result<List<Body>, AllocError>
    ensures { IfOk result (λ v. (S : TablesValue) → IsAfter view.now S config.now.tables
        → IsPart view.now S config.now.tables part.now → AreBodies config.now.tables list.now v) }
{
    let mut out = List::new(alloc);
    'list: for place in 0..list.len() {
        out.push(body_of(alloc, config, view, part, list[place])?)?;
    }
    Ok(out)
}
