//! What a read of a client shows: the catalog, or a leaf.
ghost use Rattle.std.specs.Prelude.{◌≡◌, ◌+◌, ◌*◌, ◌∷◌, [], ℕ, false, IfOk, List};
ghost use Rattle.std.specs.Prelude.{MatchOption};
ghost use Rattle.std.specs.Option.{option_map, option_to_list};
ghost use Rattle.mn_base.specs.Store.{listed, listing_of};
ghost use Rattle.mn_base.specs.Tree.{parents_of};
ghost use Rattle.mn_base.specs.declared.ids.Addr.{Addr as Place};
ghost use Rattle.mn_base.specs.declared.ids.NodeNo.{NodeNo as Node};
ghost use Rattle.mn_base.specs.declared.reply.Reply.TheVariants as Say;
ghost use Rattle.mn_catalog.specs.Grammar.{SpellsCatalog};
ghost use Rattle.mn_page.specs.Forest.{entry_head, heads_in};
ghost use Rattle.mn_page.specs.Grammar.{IsPage, SpellsPage};
ghost use Rattle.mn_page.specs.declared.entry.CatEntry.{CatEntry as Head};
ghost use Rattle.mn_page.specs.declared.page.Page.{Page as Leaf};
ghost use Rattle.mn_law.specs.Places.{page_place};
ghost use Rattle.mn_runs.specs.Seen.{seen_by, seen_at};
ghost use Rattle.mn_law.specs.Shown.{CatalogReplies};
ghost use Rattle.std.specs.List.{AllByRecursion};
ghost use Rattle.mn_hist.specs.History.{TellsCatalogRead};
ghost use Rattle.mn_hist.specs.Shown.{as_seen, TestDecides, is_of_catalog, TellsShown};
ghost use Rattle.mn_hist.specs.Shown.{CatalogBytesShow, CatalogServes, IsKnownOf};
ghost use Rattle.mn_hist.specs.Shown.{IsRefusing, LeafShowsBy, lone_key, leaf_value};
ghost use Rattle.mn_hist.specs.Shown.{IsServedByCatalog};
ghost use Rattle.mn_vtree.specs.Parents.{AreLess};

use mn_base::{Key, Name, NoMemory, NodeNo, Op, Reply, Step, Steps, Value, Version};
use mn_catalog::{CatError, Catalog};
use mn_fence::covers;
use mn_mini::{NodeReply, PartItem, ReadBytes, Request};
use mn_page::{CatEntry, PageRef};
use mn_path::value_in;
use mn_runs::{Entry, What};
use mn_vtree::{TreeError, VersionTree};
use std::alloc::Global;
use std::marker::Model;

/// The node of the catalog, its place there, and how many bytes it has.
const CATALOG_NODE: NodeNo = NodeNo(0);

const CATALOG_START: u32 = 64;

const CATALOG: u32 = 4_096;

/// Where the slots begin, and how many bytes one has.
const SLOTS_START: u32 = 20_480;

const SLOT: u32 = 1_024;

/// A read that was done, with its bytes.
#[derive(Clone, Copy)]
pub struct Read<'a> {
    pub node: NodeNo,
    pub start: u32,
    pub length: u32,
    pub bytes: &'a ReadBytes,
}

/// Whether a slot begins there.
fn is_slot(start: u32) -> bool
    ensures { TestDecides result ((slot : ℕ) × (20480 + 1024 * slot ≡ start)) }
{
    if start < SLOTS_START {
        return false;
    }
    let slot = (start - SLOTS_START) / SLOT;
    SLOT * slot == start - SLOTS_START
}

/// Whether a call may bring a read: it is told without a look at what was read.
#[inline(always)]
fn may_show(request: &Request, reply: &NodeReply) -> bool
    ensures { result ≡ false → (n : Node) → seen_by n request.now reply.now ≡ [] }
{
    matches!(
        (request, reply),
        (Request::Exec { .. }, NodeReply::Done { .. })
    )
}

/// Whether an entry may bring a read.
#[inline(always)]
pub fn may_bring(entry: &Entry) -> bool
    ensures { result ≡ false → seen_at entry.now ≡ [] }
{
    match (entry.node, &entry.what) {
        (Some(_), What::Called { request, reply }) => may_show(request, reply),
        _ => false,
    }
}

/// The read that a call brings: one of one read item that was done.
#[inline(always)]
fn read_by<'a>(node: NodeNo, request: &Request, reply: &'a NodeReply) -> Option<Read<'a>>
    ensures { option_to_list (option_map as_seen result) ≡ seen_by node request.now reply.now }
{
    let (Request::Exec { part, .. }, NodeReply::Done { reads }) = (request, reply) else {
        return None;
    };
    match (part.as_slice(), reads.as_slice()) {
        ([PartItem::Read { start, length }], [bytes]) => Some(Read {
            node,
            start: *start,
            length: *length,
            bytes,
        }),
        _ => None,
    }
}

impl<'a> Read<'a> {
    /// The read that an entry brings, if it does.
    pub fn of(entry: &'a Entry) -> Option<Read<'a>>
        ensures { option_to_list (option_map as_seen result) ≡ seen_at entry.now }
    {
        match (entry.node, &entry.what) {
            (Some(node), What::Called { request, reply }) => read_by(node, request, reply),
            _ => None,
        }
    }

    /// Whether it is a read of the catalog.
    pub fn is_catalog(&self) -> bool
        ensures { result ≡ is_of_catalog (as_seen self.now) }
    {
        self.node == CATALOG_NODE && self.start == CATALOG_START && self.length == CATALOG
    }

    /// Whether it is a read of a page.
    fn is_page(&self) -> bool
        ensures { TestDecides result
            ((addr : Place) × ((as_seen self.now).place ≡ page_place addr)) }
    {
        self.length == SLOT && is_slot(self.start)
    }
}

/// Whether the entry is at the catalog's node: no other brings the catalog.
#[inline(always)]
pub fn is_at_catalog(entry: &Entry) -> bool
    ensures { result ≡ false → AllByRecursion (λ seen. is_of_catalog seen ≡ false)
        (seen_at entry.now) }
{
    match entry.node {
        Some(node) => node == CATALOG_NODE,
        None => false,
    }
}

/// Whether the entry brings the catalog.
pub fn reads_catalog(entry: &Entry) -> bool
    ensures { TellsCatalogRead result (seen_at entry.now) }
{
    match Read::of(entry) {
        Some(read) => read.is_catalog(),
        None => false,
    }
}

/// The catalog that the bytes spell.
#[inline(always)]
fn catalog_in(alloc: Global, bytes: &ReadBytes) -> Result<Option<Catalog>, NoMemory>
    ensures { IfOk result (λ found.
        MatchOption found ((entries : List Head) → SpellsCatalog bytes.now entries → ⊥)
        (λ catalog. SpellsCatalog bytes.now catalog
        × ((entries : List Head) → SpellsCatalog bytes.now entries → catalog ≡ entries))) }
{
    match Catalog::read_padded(alloc, &bytes.padded()) {
        Ok(catalog) => Ok(Some(catalog)),
        Err(CatError::NoMemory) => Err(NoMemory),
        Err(CatError::BadCatalog { .. }) => Ok(None),
    }
}

/// Whether the reply is this refusing one.
fn is_refusal(refusal: &Reply, reply: &Reply) -> bool
    requires { IsRefusing refusal.now }
    ensures { TestDecides result (refusal.now ≡ reply.now) }
{
    match (refusal, reply) {
        (Reply::NoVersion, Reply::NoVersion) => true,
        (Reply::Frozen, Reply::Frozen) => true,
        (Reply::NotFrozen, Reply::NotFrozen) => true,
        (Reply::NameTaken, Reply::NameTaken) => true,
        (Reply::VersionsFull, Reply::VersionsFull) => true,
        _ => false,
    }
}

/// The name of the parent of an entry among these.
fn parent_name<'a>(entries: &'a [CatEntry], entry: &CatEntry) -> Option<&'a Name>
    ensures { option_map (λ n. n.now) result
        ≡ (listed (heads_in entries.now) (entry_head entry.now)).parent }
{
    let parent = entry.parent?;
    match entries.get(usize::from(parent.0)) {
        Some(parent) => Some(&parent.name),
        None => None,
    }
}

fn same_names(one: Option<&Name>, other: Option<&Name>) -> bool
    ensures { TestDecides result (option_map (λ n. n.now) one.entry
        ≡ option_map (λ n. n.now) other.entry) }
{
    match (one, other) {
        (Some(one), Some(other)) => one.as_slice() == other.as_slice(),
        (None, None) => true,
        _ => false,
    }
}

/// Whether the version is listed so by these entries.
fn is_listed(entries: &[CatEntry], entry: &CatEntry, version: &Version) -> bool
    ensures { TestDecides result
        (version.now ≡ listed (heads_in entries.now) (entry_head entry.now)) }
{
    if version.name.as_slice() != entry.name.as_slice() {
        return false;
    }
    if version.frozen != entry.frozen {
        return false;
    }
    same_names(version.parent.as_ref(), parent_name(entries, entry))
}

/// Whether the versions are listed so by these entries.
fn are_listed(entries: &[CatEntry], versions: &[Version]) -> bool
    ensures { TestDecides result (versions.now ≡ listing_of (heads_in entries.now)) }
{
    if versions.len() != entries.len() {
        return false;
    }
    for at in 0..versions.len() {
        if !is_listed(entries, &entries[at], &versions[at]) {
            return false;
        }
    }
    true
}

/// Whether these entries show the reply.
fn entries_show(catalog: &Catalog, op: &Op, reply: &Reply) -> bool
    ensures { TestDecides result (CatalogReplies (heads_in catalog.now) op.now reply.now) }
{
    if let Op::Versions = op {
        let Reply::Listing { versions } = reply else {
            return false;
        };
        return are_listed(catalog.entries(), versions.as_slice());
    }
    let Some(refusal) = catalog.admit(op) else {
        return false;
    };
    is_refusal(&refusal, reply)
}

/// Whether the catalog that the bytes spell shows the reply.
fn catalog_shows(alloc: Global, bytes: &ReadBytes, op: &Op, reply: &Reply) -> Result<bool, NoMemory>
    ensures { IfOk result (λ b. TestDecides b (CatalogBytesShow bytes.now op.now reply.now)) }
{
    match catalog_in(alloc, bytes)? {
        Some(catalog) => Ok(entries_show(&catalog, op, reply)),
        None => Ok(false),
    }
}

/// The tree of the versions of these entries, if each parent has a lower number.
fn tree_of(alloc: Global, entries: &[CatEntry]) -> Result<Option<VersionTree>, NoMemory>
    ensures { IfOk result (λ found.
        MatchOption found (AreLess (parents_of (heads_in entries.now)) → ⊥)
        (λ tree. AreLess (parents_of (heads_in entries.now))
        × (tree ≡ parents_of (heads_in entries.now)))) }
{
    let mut parents = Vec::with_capacity(alloc, entries.len())?;
    for entry in entries {
        parents.push(entry.parent)?;
    }
    match VersionTree::new(alloc, &parents) {
        Ok(tree) => Ok(Some(tree)),
        Err(TreeError::BadParent { .. }) => Ok(None),
        Err(TreeError::NoMemory) => Err(NoMemory),
    }
}

/// The catalog that the bytes spell, with the tree of its versions.
fn known_in(alloc: Global, bytes: &ReadBytes) -> Result<Option<(Catalog, VersionTree)>, NoMemory>
    ensures { IfOk result (λ known. IsKnownOf bytes.now known) }
{
    let Some(catalog) = catalog_in(alloc, bytes)? else {
        return Ok(None);
    };
    let Some(tree) = tree_of(alloc, catalog.entries())? else {
        return Ok(None);
    };
    Ok(Some((catalog, tree)))
}

/// A catalog that was read: its bytes, and what is known of them, so that they are parsed once.
/// Contracts see the bytes.
#[derive(Drop)]
pub struct KnownCatalog<'a> {
    bytes: &'a ReadBytes,
    known: Option<(Catalog, VersionTree)>,
}

impl<'a> Model for KnownCatalog<'a> {
    ghost use Rattle.std.specs.Prelude.{ℕ, List};
    ghost use Rattle.mn_hist.specs.Shown.{IsKnownOf};

    ghost Value = { List ℕ };

    ghost view = { λ c. c.bytes.now };

    ghost invariant = { λ c. IsKnownOf c.bytes.now c.known };
}

impl<'a> KnownCatalog<'a> {
    /// NoMemory: there was no memory for it.
    pub fn new(alloc: Global, bytes: &'a ReadBytes) -> Result<KnownCatalog<'a>, NoMemory>
        ensures { IfOk result (λ known. known ≡ bytes.now) }
    {
        Ok(KnownCatalog {
            bytes,
            known: known_in(alloc, bytes)?,
        })
    }

    /// Whether the page serves the version of this name by it.
    fn serves(&self, name: &Name, page: &PageRef<'_>) -> bool
        ensures { TestDecides result (CatalogServes self.now name.now page.now) }
    {
        let Some((catalog, tree)) = &self.known else {
            return false;
        };
        let Some(version) = catalog.find(name) else {
            return false;
        };
        tree.serves(page.made(), page.copied(), version)
    }
}

/// Whether the page serves the version of this name by the catalog, if there is one.
fn is_served(catalog: Option<&KnownCatalog<'_>>, name: &Name, page: &PageRef<'_>) -> bool
    ensures { TestDecides result (IsServedByCatalog
        (option_map (λ c. c.now) catalog.entry) name.now page.now) }
{
    match catalog {
        Some(catalog) => catalog.serves(name, page),
        None => false,
    }
}

/// The key of a lone Get.
fn lone_get(steps: &Steps) -> Option<&Key>
    ensures { option_map (λ k. k.now) result ≡ lone_key steps.now }
{
    match steps.as_slice() {
        [Step::Get { key }] => Some(key),
        _ => None,
    }
}

/// What a leaf that covers the key has there.
fn found_in<'a>(page: &PageRef<'a>, key: &[u8]) -> Option<Option<&'a [u8]>>
    requires { IsPage page.now }
    ensures { option_map (λ found. option_map (λ v. v.now) found) result
        ≡ leaf_value page.now key.now }
{
    if page.height() > 0 || !covers(page.low(), page.high(), key) {
        return None;
    }
    Some(value_in(page, key))
}

/// Whether the two are one value, or neither is there.
fn is_same_value(found: &Option<Value>, value: Option<&[u8]>) -> bool
    ensures { TestDecides result (found.now ≡ option_map (λ v. v.now) value.entry) }
{
    match (found, value) {
        (Some(found), Some(value)) => found.as_slice() == value,
        (None, None) => true,
        _ => false,
    }
}

/// Whether the reply is that of a lone Get which finds this.
fn is_found(reply: &Reply, value: Option<&[u8]>) -> bool
    ensures { TestDecides result (reply.now
        ≡ Say.Values (option_map (λ v. v.now) value.entry ∷ [])) }
{
    let Reply::Values { found } = reply else {
        return false;
    };
    match found.as_slice() {
        [found] => is_same_value(found, value),
        _ => false,
    }
}

/// The page that the bytes spell.
fn page_in<'a>(bytes: &'a ReadBytes) -> Option<PageRef<'a>>
    ensures { MatchOption result ((page : Leaf) → SpellsPage bytes.now page → ⊥)
        (λ page. SpellsPage bytes.now page
        × ((other : Leaf) → SpellsPage bytes.now other → page ≡ other)) }
{
    match PageRef::of_padded(&bytes.padded()) {
        Ok(found) => found,
        Err(_) => None,
    }
}

/// Whether the leaf that the bytes spell shows what a lone Get of the key finds in the version,
/// which it serves by the catalog.
fn leaf_shows(
    bytes: &ReadBytes,
    catalog: Option<&KnownCatalog<'_>>,
    version: &Name,
    key: &Key,
    reply: &Reply,
) -> bool
    ensures { TestDecides result (LeafShowsBy
        (option_map (λ c. c.now) catalog.entry) bytes.now version.now key.now reply.now) }
{
    let Some(page) = page_in(bytes) else {
        return false;
    };
    let Some(value) = found_in(&page, key.as_slice()) else {
        return false;
    };
    if !is_found(reply, value) {
        return false;
    }
    is_served(catalog, version, &page)
}

/// Whether the read shows the reply to the operation: a leaf what a lone Get finds, the catalog a
/// refusal or the list of versions. `catalog` is what its client had read last before it. NoMemory:
/// there was no memory to tell.
pub fn shows(
    alloc: Global,
    read: &Read<'_>,
    catalog: Option<&KnownCatalog<'_>>,
    op: &Op,
    reply: &Reply,
) -> Result<bool, NoMemory>
    ensures { IfOk result (λ b. TellsShown b (option_map (λ c. c.now) catalog.entry)
        (as_seen read.now) op.now reply.now) }
{
    if read.is_catalog() {
        return catalog_shows(alloc, read.bytes, op, reply);
    }
    let Op::Tx { version, steps } = op else {
        return Ok(false);
    };
    let Some(key) = lone_get(steps) else {
        return Ok(false);
    };
    if !read.is_page() {
        return Ok(false);
    }
    Ok(leaf_shows(read.bytes, catalog, version, key, reply))
}
