// A store's file that is read in parts.

ghost use Rattle.std.specs.Prelude.{◌≡◌, ℕ, ◌+◌, ◌*◌, ◌≤◌, ◌<◌, ◌↔◌, length, slice_index, IfErr, IfOk};
ghost use Rattle.descent.specs.Descents.{roots};
ghost use Rattle.descent.specs.Known.{greatest_known, node_facts};
ghost use Rattle.descent.specs.Spent.{HasSpent, roots_in};
ghost use Rattle.descent.specs.Told.{Tells};
ghost use Rattle.expr.specs.Facts.{facts_of};
ghost use Rattle.expr.specs.Terms.{query_term_of};
ghost use Rattle.lazy_tree.specs.Opened.{AreApart, Means, header_len};
ghost use Rattle.segment.specs.Nodes.{Forest, HandsOut, KeepsRoots, known_root};
ghost use Rattle.semantics.specs.Admitted.{IsAdmitted};
ghost use Rattle.semantics.specs.Files.{IfTold};
ghost use Rattle.semantics.specs.Limits.{IsWithinLimits};
ghost use Rattle.semantics.specs.Plain.{IsPlain};
ghost use Rattle.query_cli.specs.Asked.{forest_of};
ghost use Rattle.query_cli.specs.Parted.{HasHeader, IfStands, IsBad, IsRooted, IsRootKnown, IsThere, IsTold, IsUnopened};
ghost use Rattle.query_cli.specs.Shelf.{OnlyReads};
ghost use Rattle.query_cli.specs.Stops.{IfStopped};

use crate::refusals::Refusal;
use crate::steps::files::find_store;
use crate::stop::{Fault, Halt, Stop, refuse};
use descent::{Answer, DescentErr, descend};
use expr::{Fact, Name, Query};
use lazy_tree::{FileNodes, HeaderErr};
use outside::Shelf;
use segment::{NodeErr, Nodes};
use std::alloc::{AllocError, Global};

/// A store's file whose header and roots were read: the names of its series, what is known of them, and its nodes.
#[derive(Drop)]
pub(crate) struct StoreFile<'a, S: Shelf> {
    pub(crate) names: Vec<Name>,
    pub(crate) facts: Vec<Fact>,
    pub(crate) nodes: FileNodes<'a, S>,
}

// The nodes of a store's file, by its header.
fn open_nodes<'a, S: Shelf>(
    alloc: Global,
    shelf: &mut S,
    file: &'a str,
) -> Result<FileNodes<'a, S>, Halt>
    requires { IfTold (S.files shelf.old) (λ m. IsThere m file.now) }
    ensures few { IfOk result (λ f. length f.names ≤ 16) }
    ensures named { IfOk result (λ f. length f.names ≡ length f.lengths) }
    ensures apart { IfOk result (λ f. AreApart f.names) }
    ensures header { IfOk result (λ f. IfTold (S.files shelf.old) (λ m. HasHeader m file.now)) }
    ensures file { IfOk result (λ f. f.file ≡ file.now) }
    ensures means { IfOk result (λ f. IfStands (S.files shelf.old) file.now (λ m.
        Means f (S.files shelf.old) (forest_of m))) }
    ensures refused { IfErr result (λ h. IfStopped h (IsUnopened (S.files shelf.old) file.now)) }
    ensures shelf { OnlyReads S.files S.read_faults S.replace_faults shelf.old shelf.new result }
    ensures handed { IfOk result (λ f. HandsOut (header_len f.names) (S.handed shelf.old) (S.handed shelf.new)) }
    ensures fetches { S.fetches shelf.new ≡ S.fetches shelf.old }
{
    match FileNodes::of(alloc, shelf, file) {
        Ok(nodes) => Ok(nodes),
        Err(HeaderErr::NotAStore(_)) => Err(Halt::Stopped(refuse(alloc, &Refusal::StoreFault))),
        Err(HeaderErr::Failed) => Err(Halt::Faulted(Fault::Reading)),
        Err(HeaderErr::Memory) => Err(Halt::Stopped(Stop::Memory)),
    }
}

// The names of the series, in order.
fn names_of<S: Shelf>(alloc: Global, nodes: &FileNodes<'_, S>) -> Result<Vec<Name>, AllocError>
    ensures { IfOk result (λ names. names.items ≡ nodes.now.names) }
{
    nodes.names().iter().copied().collect(alloc)
}

// The greatest magnitude of a reading of a series, which its root tells; 0 where it has none.
fn read_greatest<S: Shelf>(
    alloc: Global,
    nodes: &mut FileNodes<'_, S>,
    shelf: &mut S,
    series: u32,
) -> Result<u64, Halt>
    requires { series < length nodes.old.lengths }
    ensures greatest { IfOk result (λ d.
        d ≡ greatest_known (slice_index nodes.new.lengths series) (known_root nodes.new.roots series)) }
    ensures known { IfOk result (λ d. IsRootKnown nodes.new.lengths nodes.new.roots series) }
    ensures bad { IfErr result (λ h. IfStopped h (IsBad nodes.old (S.files shelf.old))) }
    ensures shelf { OnlyReads S.files S.read_faults S.replace_faults shelf.old shelf.new result }
    ensures handed { HandsOut 56 (S.handed shelf.old) (S.handed shelf.new) }
    ensures fetches { S.fetches shelf.new ≡ S.fetches shelf.old }
    ensures means { (forest : Forest) → Means nodes.old (S.files shelf.old) forest
        ↔ Means nodes.new (S.files shelf.new) forest }
    ensures roots { KeepsRoots nodes.old.roots nodes.new.roots }
    ensures lengths { nodes.new.lengths ≡ nodes.old.lengths }
{
    match nodes.root(shelf, series) {
        Ok(Some((_, seg))) => Ok(seg.d),
        Ok(None) => Ok(0),
        Err(NodeErr::Bad) => Err(Halt::Stopped(refuse(alloc, &Refusal::StoreFault))),
        Err(NodeErr::Failed) => Err(Halt::Faulted(Fault::Reading)),
    }
}

// Reads the roots, and answers what is known of the series of these names.
fn read_facts<S: Shelf>(
    alloc: Global,
    nodes: &mut FileNodes<'_, S>,
    shelf: &mut S,
    names: &[Name],
) -> Result<Vec<Fact>, Halt>
    requires named { length names.now ≡ length nodes.old.lengths }
    requires few { length names.now ≤ 16 }
    ensures facts { IfOk result (λ v.
        facts_of v.items ≡ node_facts names.now nodes.new.lengths nodes.new.roots) }
    ensures known { IfOk result (λ v.
        (k : ℕ) → k < length names.now → IsRootKnown nodes.new.lengths nodes.new.roots k) }
    ensures bad { IfErr result (λ h. IfStopped h (IsBad nodes.old (S.files shelf.old))) }
    ensures shelf { OnlyReads S.files S.read_faults S.replace_faults shelf.old shelf.new result }
    ensures handed { IfOk result (λ v. HandsOut (56 * length names.now) (S.handed shelf.old) (S.handed shelf.new)) }
    ensures fetches { S.fetches shelf.new ≡ S.fetches shelf.old }
    ensures means { (forest : Forest) → Means nodes.old (S.files shelf.old) forest
        ↔ Means nodes.new (S.files shelf.new) forest }
    ensures lengths { nodes.new.lengths ≡ nodes.old.lengths }
{
    let mut facts = Vec::new(alloc);
    for name in names {
        let series = facts.len() as u32;
        let d = read_greatest(alloc, nodes, shelf, series)?;
        let n = nodes.readings_len(series);
        facts.push(Fact { name: *name, n, d })?;
    }
    Ok(facts)
}

/// Opens the file of a store, and reads its header and its roots; or says why that is no store's.
pub(crate) fn open_store<'a, S: Shelf>(
    alloc: Global,
    shelf: &mut S,
    file: &'a str,
) -> Result<StoreFile<'a, S>, Halt>
    ensures rooted { IfOk result (λ s. IsRooted s.nodes s.names.items (facts_of s.facts.items)) }
    ensures header { IfOk result (λ s. IfTold (S.files shelf.old) (λ m. HasHeader m file.now)) }
    ensures told { IfOk result (λ s. IfStands (S.files shelf.old) file.now
        (IsTold s.nodes (S.files shelf.old) s.names.items (facts_of s.facts.items))) }
    ensures refused { IfErr result (λ h. IfStopped h (IsUnopened (S.files shelf.old) file.now)) }
    ensures shelf { OnlyReads S.files S.read_faults S.replace_faults shelf.old shelf.new result }
    ensures handed { IfOk result (λ s. HandsOut (header_len s.names.items + 56 * length s.names.items)
        (S.handed shelf.old) (S.handed shelf.new)) }
    ensures fetches { S.fetches shelf.new ≡ S.fetches shelf.old }
{
    find_store(alloc, shelf, file)?;
    let mut nodes = open_nodes(alloc, shelf, file)?;
    let names = names_of(alloc, &nodes)?;
    let facts = read_facts(alloc, &mut nodes, shelf, &names)?;
    Ok(StoreFile {
        names,
        facts,
        nodes,
    })
}

/// The answer of the descent over the nodes of a file, for which the query is admitted.
pub(crate) fn descent_over<S: Shelf>(
    alloc: Global,
    store: &mut StoreFile<'_, S>,
    shelf: &mut S,
    q: &Query,
    budget: u128,
) -> Result<Answer, Halt>
    requires rooted { IsRooted store.old.nodes store.old.names.items (facts_of store.old.facts.items) }
    requires plain { IsPlain (query_term_of q.now) }
    requires limits { IsWithinLimits (query_term_of q.now) }
    requires admitted { IsAdmitted (facts_of store.old.facts.items) (query_term_of q.now) }
    ensures told { IfOk result (λ a. (forest : Forest) → Means store.old.nodes (S.files shelf.old) forest
        → Tells (query_term_of q.now) (roots (query_term_of q.now) forest store.old.names.items) budget a) }
    ensures bad { IfErr result (λ h. IfStopped h (IsBad store.old.nodes (S.files shelf.old))) }
    ensures shelf { OnlyReads S.files S.read_faults S.replace_faults shelf.old shelf.new result }
    ensures handed { IfOk result (λ a.
        HasSpent (roots_in (query_term_of q.now) store.old.nodes.lengths 0 store.old.names.items)
        (length a.cut) a.opened (S.handed shelf.old) (S.handed shelf.new)) }
    ensures names { store.new.names.items ≡ store.old.names.items }
    ensures fetches { S.fetches shelf.new ≡ S.fetches shelf.old }
{
    match descend(alloc, &mut store.nodes, shelf, &store.names, q, budget) {
        Ok(answer) => Ok(answer),
        Err(DescentErr::Memory) => Err(Halt::Stopped(Stop::Memory)),
        Err(DescentErr::Bad) => Err(Halt::Stopped(refuse(alloc, &Refusal::StoreFault))),
        Err(DescentErr::Failed) => Err(Halt::Faulted(Fault::Reading)),
    }
}
