//! The store of a server: opened, made where there is none yet, and listed.
ghost use Rattle.std.specs.FinMap as map;
ghost use Rattle.std.specs.Io.KnownBytes.{Appends};
ghost use Rattle.std.specs.Prelude.{◌≡◌, ◌≤◌, ◌++◌, [], Bool, IfErr, IfOk, IfSome, IsSome, IsTrue, List, OnOk, Some, false, fold, is_some, string_bytes, true, ℕ, ⊤};
ghost use Rattle.std.specs.List.{flat_map};
ghost use Rattle.sqlite_disk.specs.Disk.{MoreFaults};
ghost use Rattle.sqlite_store.specs.FileStore.{blamed, faults, recovers, view};
ghost use Rattle.sqlite_trees.specs.View.{IsClean, doubt};
ghost use Rattle.osc_store.specs.{IsWhole, Keeps, MayLeave, Writes};
ghost use Rattle.osc_store.specs.Causes.{IsNamedBy, WhyNotKept};
ghost use Rattle.osc_store.specs.Keeping.{keeps_writes, may_leave_either, may_leave_first};
ghost use Rattle.sqlite_wal.specs.Files.{image_at};
ghost use Rattle.osc_model.specs.Tree.{Tree as AnyTree};
ghost use Rattle.osc_server.specs.State.{State as AnyServer};
ghost use Rattle.osc_turn.specs.Kept.Changes.{HasTooLong};
ghost use Rattle.osc_turn.specs.Inner.Stores.{may_leave_last};
ghost use Rattle.osc_words.specs.declared.settings.resource.ResourceSetting.{ResourceSetting as AnySetting};
ghost use Rattle.osc_words.specs.declared.settings.store_file.StoreDisk.{StoreDisk as AnyDisk};
ghost use Rattle.osc_programs.specs.ByDisk.{IsOpenedFor};
ghost use Rattle.osc_programs.specs.Ended as ends;
ghost use Rattle.osc_programs.specs.Inner.Stores.{keeps_same, leaves_same};
ghost use Rattle.osc_programs.specs.Serving.{tree_of, with_resource};
ghost use Rattle.osc_programs.specs.Storing as spec;

use crate::by_disk::ByDisk;
use crate::checked::resource_text;
use crate::checking::said;
use crate::copies::{Copies, Uncopied, copy_files};
use crate::dumping::dump_text;
use crate::ended::{Ended, ended_by_io};
use crate::revoking::KeepsServer;
use crate::running::{add_resource, first_tree};
use crate::saving::save_tree;
use osc_ccm::Suite;
use osc_model::laws::paths_are_ordered;
use osc_model::{Path, Resource, StepNotes};
use osc_server::Server;
use osc_store::{
    FRAMED_LOG, FileKeeper, KeepError, Keeper, Keeping, OpenStoreError, Start, Unknown, Wary,
    are_same, draw_mark, read_store, read_until_damage,
};
use osc_tree::Tree;
use osc_turn::laws::one_path_changes;
use osc_turn::{KeepsSteps, since_boot, write_change};
use osc_words::{FileName, ResourceSetting, StoreDisk, StoreWords};
use sqlite_disk::Disk;
use sqlite_std_file::FileFrom;
use sqlite_store::FileStore;
use std::alloc::{AllocError, Global};
use std::fs::{self, File, OpenOptions};
use std::io::{self, Eprint, ErrorKind, Write};
use std::os::unix::fs::OpenOptionsExt;

/// What opens the stores of servers. Contracts see what each held.
pub trait Stores {
    /// What keeps the changes of a server.
    type Keeper: KeepsServer + Drop;

    // Of its disk this is supposed. The store in the file of this name was opened, or first made of these resources: what keeps its changes, and the
    // resources that it holds.
    ghost holds: { Self → AnyDisk → List ℕ → List AnySetting → Self.Keeper → AnyTree → Type 0 };

    /// Opens the store in this file, with the resources that it holds; of its disk this is supposed. Where there is no such file yet, a store of the
    /// given resources is made first, and is there with all of them or not at all. A file that is no store is left as it is. A line on the standard
    /// error tells why none is opened.
    fn open_store(
        &self,
        file: &str,
        disk: StoreDisk,
        first: &[ResourceSetting],
    ) -> Result<(Self::Keeper, Tree), Ended>
        ensures opened { IfOk result (λ stored. holds self.now disk file.now first.now stored.0 stored.1) }
        // Whatever a crash leaves from then on, the next start finds these resources.
        ensures kept { IfOk result (λ stored. (server : AnyServer) → server.tree ≡ stored.1 → Self.Keeper.keeps stored.0 server) }
        ensures file { IfOk result (λ stored. Self.Keeper.file stored.0 ≡ Some file.now) }
        ensures ends { IfErr result ends.NoStore };

    // The store in the file of this name was read, and held these resources; or where that is asked for, they are those that stand in its log before
    // damage.
    ghost held: { Self → List ℕ → Bool → AnyTree → Type 0 };

    /// The resources of the store in this file, where there is one; it is only read. Where its log is damaged it isn't read, unless what stands before the
    /// damage is asked for. A line on the standard error tells why it isn't read.
    fn find_store(&self, file: &str, until_damage: bool) -> Result<Tree, Ended>
        ensures found { IfOk result (held self.now file.now until_damage) }
        ensures ends { IfErr result ends.NotOpened };

    // The file of this name was written: it alone is found as these resources.
    ghost saves: { Self → List ℕ → AnyTree → Type 0 };

    /// Writes these resources to a new file of this name, which alone is a store of them. It is there whole or not at all, and nothing that is there
    /// is written over. A line on the standard error tells why none is written.
    fn save_store(&self, to: &str, tree: &Tree) -> Result<(), Ended>
        ensures saved { OnOk result (saves self.now to.now tree.now) }
        ensures ends { IfErr result ends.NotOpened };
}

/// How long no change comes before the file itself holds all that was kept, in seconds.
const IDLE_SECONDS: u64 = 10;

/// What keeps the changes of a server in a file of this system.
#[derive(Drop)]
pub struct StoreFile<D: Disk> {
    keeper: FileKeeper<D>,
    // The file's name.
    file: String,
    // Whether the store was made first, as it was opened.
    made: bool,
    // When the last change came that the file itself doesn't hold yet.
    changed: Option<u64>,
}

impl<D: Disk> StoreFile<D> {
    // Puts into the file itself all that was kept.
    fn make_whole(&mut self) -> Result<(), KeepError>
        ensures kept { (tree : AnyTree) → Keeps view recovers self.old.keeper.store tree → IsClean (view self.new.keeper.store)
            → OnOk result (Keeps view recovers self.new.keeper.store tree) }
        ensures crash { (tree : AnyTree) → Keeps view recovers self.old.keeper.store tree → IsClean (view self.new.keeper.store)
            → MayLeave view recovers self.new.keeper.store tree tree }
        ensures cause { (tree : AnyTree) → Keeps view recovers self.old.keeper.store tree → IsClean (view self.new.keeper.store)
            → IfErr result (WhyNotKept (MoreFaults (faults self.old.keeper.store) (faults self.new.keeper.store)) ⊥) }
        ensures named { IfErr result (IsNamedBy (blamed self.new.keeper.store)) }
        ensures done { OnOk result (self.new.keeper.pending ≡ false) }
        ensures counts { faults self.old.keeper.store ≤ faults self.new.keeper.store }
        ensures clean { doubt (view self.old.keeper.store).is_clean ≤ doubt (view self.new.keeper.store).is_clean }
        ensures file { self.new.file ≡ self.old.file }
    {
        self.changed = None;
        self.keeper.make_whole()
    }

    // Where something is written, a change has come now.
    fn note_change(&mut self)
        ensures keeper { self.new.keeper ≡ self.old.keeper }
        ensures file { self.new.file ≡ self.old.file }
        ensures nothing { self.old.keeper.pending ≡ false → self.new ≡ self.old }
    {
        if self.keeper.pending {
            self.changed = Some(seconds());
        }
    }

    // Whether a change has come that the file itself doesn't hold yet, and none for long enough.
    fn is_idle(&self) -> bool
        ensures { IsTrue result → IsSome self.now.changed }
    {
        match self.changed {
            Some(changed) => seconds().saturating_sub(changed) >= IDLE_SECONDS,
            None => false,
        }
    }
}

// The time since the start of the machine, which says nothing where it can't be read.
fn seconds() -> u64 {
    match since_boot() {
        Some(time) => time.as_secs(),
        None => 0,
    }
}

impl<D: Disk> KeepsSteps<Suite, Server> for StoreFile<D> {
    ghost keeps = { λ it node. IsClean (view it.keeper.store) → Keeps view recovers it.keeper.store node.tree };

    ghost writes = { λ it first last. IsClean (view it.keeper.store) → Writes view recovers it.keeper.store it.keeper.pending first.tree last.tree };

    ghost may_hold = { λ it before after. IsClean (view it.keeper.store) → MayLeave view recovers it.keeper.store before.tree after.tree };

    ghost pending = { λ it. it.keeper.pending };

    ghost owes = { λ it. is_some it.changed };

    ghost may_fail = { ⊤ };

    ghost faults = { λ it. faults it.keeper.store };

    ghost trusted = { λ it. IsClean (view it.keeper.store) };

    ghost names = { λ it error. IsNamedBy (blamed it.keeper.store) error };

    ghost too_long = { λ node. HasTooLong node.tree };

    ghost file = { λ it. Some (string_bytes it.file) };

    fn write_step(&mut self, node: &Server, notes: &StepNotes) -> Result<(), KeepError> {
        one_path_changes();
        write_change(&mut self.keeper, node.tree(), notes.served())
    }

    fn commit(&mut self) -> Result<(), KeepError> {
        self.note_change();
        self.keeper.commit()
    }

    // Where no change has come for long enough, the file itself is to hold all that was kept.
    fn rest(&mut self) -> Result<(), KeepError> {
        if self.is_idle() {
            self.make_whole()
        } else {
            Ok(())
        }
    }

    ghost writes_first = { λ it node keeps clean. keeps_writes view recovers it.keeper.store it.keeper.pending node.tree (keeps clean) };

    ghost holds_first = { λ it first last keeps clean. may_leave_first view recovers it.keeper.store first.tree last.tree (keeps clean) };

    ghost holds_either = { λ it first last holds clean. may_leave_either view recovers it.keeper.store first.tree last.tree (holds clean) };

    ghost holds_second = { λ it first last holds clean. may_leave_last view recovers it.keeper.store first.tree last.tree (holds clean) };
}

impl<D: Disk> KeepsServer for StoreFile<D> {
    fn keep_start(&mut self, path: &Path, resource: Option<&Resource>) -> Result<(), KeepError> {
        paths_are_ordered();
        match self.keeper.write(path, resource) {
            Ok(()) => {
                self.changed = Some(seconds());
                self.keeper.commit()
            }
            Err(error) => Err(error),
        }
    }

    fn keep_end(&mut self) -> Result<(), KeepError> {
        self.make_whole()
    }

    ghost keeps_tree = { λ it one other same keeps clean. keeps_same view recovers it.keeper.store one.tree other.tree same (keeps clean) };

    ghost holds_trees = { λ it before one after other same too holds clean. leaves_same view recovers it.keeper.store before.tree one.tree after.tree other.tree same too (holds clean) };
}

/// The stores in files of this system. Nothing is supposed of what they hold. A store that was made first holds the first resources.
impl Stores for HostRuntime {
    type Keeper = ByDisk<StoreFile<FileFrom<Wary>>, StoreFile<FileFrom<Unknown>>>;

    ghost holds = { λ _ disk file first kept tree. IsOpenedFor disk
        (λ any. spec.IsStoreAt view recovers (image_at ⟦<Wary as Start>⟧) file first any.keeper.store (string_bytes any.file) any.made tree)
        (λ whole. spec.IsStoreAt view recovers (image_at ⟦<Unknown as Start>⟧) file first whole.keeper.store (string_bytes whole.file) whole.made tree) kept };

    fn open_store(
        &self,
        file: &str,
        disk: StoreDisk,
        first: &[ResourceSetting],
    ) -> Result<
        (
            ByDisk<StoreFile<FileFrom<Wary>>, StoreFile<FileFrom<Unknown>>>,
            Tree,
        ),
        Ended,
    > {
        match disk {
            StoreDisk::Any => {
                let (kept, tree) = store_of(self, file, Wary, first)?;
                Ok((ByDisk::Any(kept), tree))
            }
            StoreDisk::WholeSectors => {
                let (kept, tree) = store_of(self, file, Unknown, first)?;
                Ok((ByDisk::WholeSectors(kept), tree))
            }
        }
    }

    ghost held = { λ _ _ _ tree. spec.IsRead tree };

    fn find_store(&self, file: &str, until_damage: bool) -> Result<Tree, Ended> {
        read_tree(self, file, until_damage)
    }

    ghost saves = { λ _ _ tree. spec.IsSaved tree };

    fn save_store(&self, to: &str, tree: &Tree) -> Result<(), Ended> {
        save_tree(self, to, tree)
    }
}

// The resources that copies of the files hold, which are only read.
fn read_tree(rt: &HostRuntime, file: &str, until_damage: bool) -> Result<Tree, Ended>
    ensures found { IfOk result spec.IsRead }
    ensures ends { IfErr result ends.NotOpened }
{
    let copies = match copy_files(rt, file) {
        Ok(copies) => copies,
        Err(Uncopied::Io(error)) => return Err(refused_by_io(rt, file, &error)),
        Err(Uncopied::Refused(error)) => return Err(refused(rt, file, file, error)),
    };
    match tree_in(rt.alloc(), &copies, until_damage) {
        Ok(tree) => Ok(tree),
        Err(error) => Err(refused(rt, file, file, error)),
    }
}

fn tree_in(alloc: Global, copies: &Copies, until_damage: bool) -> Result<Tree, OpenStoreError>
    ensures { IfOk result spec.IsRead }
{
    if until_damage {
        read_until_damage(alloc, &copies.log, &copies.db)
    } else {
        read_store(alloc, &copies.log, &copies.db)
    }
}

/// Writes a line for each resource that the store in the file of these words holds: `resource PATH FORMAT N bytes`, in the order of the bytes of
/// their paths; or each as settings name it. The same resources are written to a new file first, if one is named. A line on the standard error
/// tells why the store isn't read, or the new file not written.
pub fn list_store<R: Stores, W: Write>(
    alloc: Global,
    runtime: &R,
    words: &StoreWords,
    writer: &mut W,
) -> Ended
    ensures done { result ≡ Ended.Done → (tree : AnyTree) × R.held runtime.now words.now.file words.now.until_damage tree
        × IfSome words.now.backup (λ to. R.saves runtime.now to tree)
        × Appends (W.contents writer.old) (W.contents writer.new) (spec.printed words.now.dump tree) }
    ensures ends { ends.EndsStore result }
{
    match runtime.find_store(words.file.as_str(), words.until_damage) {
        Ok(tree) => match back_up(runtime, &words.backup, &tree) {
            Ok(()) => print_tree(alloc, &tree, words.dump, writer),
            Err(ended) => ended,
        },
        Err(ended) => ended,
    }
}

fn back_up<R: Stores>(runtime: &R, to: &Option<FileName>, tree: &Tree) -> Result<(), Ended>
    ensures saved { OnOk result (IfSome to.now (λ to. R.saves runtime.now to tree.now)) }
    ensures ends { IfErr result ends.NotOpened }
{
    match to {
        Some(to) => runtime.save_store(to.as_str(), tree),
        None => Ok(()),
    }
}

fn print_tree<W: Write>(alloc: Global, tree: &Tree, dump: bool, writer: &mut W) -> Ended
    ensures done { result ≡ Ended.Done → Appends (W.contents writer.old) (W.contents writer.new) (spec.printed dump tree.now) }
    ensures ends { ends.EndsTurns result }
{
    match printed(alloc, tree, dump) {
        Ok(text) => said(&text, writer),
        Err(_) => Ended::OutOfMemory,
    }
}

fn printed(alloc: Global, tree: &Tree, dump: bool) -> Result<Vec<u8>, AllocError>
    ensures { IfOk result (λ text. text.items ≡ spec.printed dump tree.now) }
{
    if dump {
        dump_text(alloc, tree)
    } else {
        tree_text(alloc, tree)
    }
}

fn tree_text(alloc: Global, tree: &Tree) -> Result<Vec<u8>, AllocError>
    ensures { IfOk result (λ text. text.items ≡ spec.store_lines tree.now) }
{
    let mut text = Vec::new(alloc);
    for (path, resource) in tree.iter() {
        text.extend_from_slice(&stored_line(alloc, path, resource)?)?;
    }
    Ok(text)
}

fn stored_line(alloc: Global, path: &Path, resource: &Resource) -> Result<Vec<u8>, AllocError>
    ensures { IfOk result (λ text. text.items ≡ spec.stored_line (path.now, resource.now)) }
{
    resource_text(alloc, path, resource.format, &resource.payload)
}

// ---- a store that is there

// The store in this file, which is made first where there is none.
fn store_of<S: Start>(
    rt: &HostRuntime,
    file: &str,
    start: S,
    first: &[ResourceSetting],
) -> Result<(StoreFile<FileFrom<S>>, Tree), Ended>
    ensures opened { IfOk result (λ stored. spec.IsStoreAt view recovers (image_at S.Start) file.now first.now stored.0.keeper.store (string_bytes stored.0.file) stored.0.made stored.1) }
    ensures ends { IfErr result ends.NoStore }
{
    let made = is_missing(rt, file);
    if made {
        make_store(rt, file, first)?;
    }
    let (kept, tree) = store_at(rt, file, start, made)?;
    is_as_made(rt, &kept, &tree, first)?;
    Ok((kept, tree))
}

// The store in this file, whose database file alone holds it.
fn store_at<S: Start>(
    rt: &HostRuntime,
    file: &str,
    start: S,
    made: bool,
) -> Result<(StoreFile<FileFrom<S>>, Tree), Ended>
    ensures opened { IfOk result (λ opened. spec.IsOpened view recovers (image_at S.Start) opened.0.keeper.store opened.1) }
    ensures file { IfOk result (λ opened. string_bytes opened.0.file ≡ file.now) }
    ensures made { IfOk result (λ opened. opened.0.made ≡ made) }
    ensures ends { IfErr result ends.NoStore }
{
    let Ok(name) = String::from_str(rt.alloc(), file) else {
        return Err(Ended::OutOfMemory);
    };
    match whole_store(rt, name.as_str(), start) {
        Ok((keeper, tree)) => {
            let kept = StoreFile {
                keeper,
                file: name,
                made,
                changed: None,
            };
            Ok((kept, tree))
        }
        Err(ended) => Err(ended),
    }
}

// Where the store was made first, it has to have the first resources, and nothing else.
fn is_as_made<S: Start>(
    rt: &HostRuntime,
    kept: &StoreFile<FileFrom<S>>,
    tree: &Tree,
    first: &[ResourceSetting],
) -> Result<(), Ended>
    ensures as_made { OnOk result (kept.now.made ≡ true → tree.now ≡ tree_of first.now) }
    ensures ends { IfErr result ends.NoStore }
{
    if !kept.made {
        return Ok(());
    }
    let wanted = first_tree(rt.alloc(), first)?;
    if are_same(tree, &wanted) {
        Ok(())
    } else {
        let file = kept.file.as_str();
        Err(refused(rt, file, file, OpenStoreError::Damaged))
    }
}

// The store, whose database file alone holds it.
fn whole_store<S: Start>(
    rt: &HostRuntime,
    file: &str,
    start: S,
) -> Result<(FileKeeper<FileFrom<S>>, Tree), Ended>
    ensures opened { IfOk result (λ opened. spec.IsOpened view recovers (image_at S.Start) opened.0.store opened.1) }
    ensures whole { IfOk result (λ opened. IsClean (view opened.0.store) → IsWhole opened.0.store opened.1) }
    ensures ends { IfErr result ends.NoStore }
{
    let (mut keeper, tree) = match old_store(rt, file, start) {
        Ok(opened) => opened,
        Err(ended) => return Err(ended),
    };
    match keeper.make_whole() {
        Ok(()) => Ok((keeper, tree)),
        Err(error) => {
            tell_unkept(rt.alloc(), rt, file, Ended::NotKept(error));
            Err(Ended::NotKept(error))
        }
    }
}

fn old_store<S: Start>(
    rt: &HostRuntime,
    file: &str,
    start: S,
) -> Result<(FileKeeper<FileFrom<S>>, Tree), Ended>
    ensures opened { IfOk result (λ opened. spec.IsOpened view recovers (image_at S.Start) opened.0.store opened.1) }
    ensures ends { IfErr result ends.NotOpened }
{
    match opened(rt, file, start) {
        Ok(opened) => Ok(opened),
        Err(error) => Err(refused(rt, file, file, error)),
    }
}

fn opened<S: Start>(
    rt: &HostRuntime,
    file: &str,
    start: S,
) -> Result<(FileKeeper<FileFrom<S>>, Tree), OpenStoreError>
    ensures { IfOk result (λ opened. spec.IsOpened view recovers (image_at S.Start) opened.0.store opened.1) }
{
    let mark = draw_mark(rt)?;
    match osc_store::open(rt, file, start) {
        Ok((store, tree)) => Ok((FileKeeper::new(rt.alloc(), store, mark), tree)),
        Err((error, _left)) => Err(error),
    }
}

// ---- a first store

// Where a first store is made, beside the file: nothing is at the file's own name before the store is whole.
#[derive(Drop)]
struct NewFiles {
    db: String,
    log: String,
    // The log's place in the end.
    log_to: String,
}

fn new_files(alloc: Global, file: &str) -> Result<NewFiles, AllocError> {
    Ok(NewFiles {
        db: format!(in alloc; "{file}-new")?,
        log: format!(in alloc; "{file}-new-wal")?,
        log_to: format!(in alloc; "{file}-wal")?,
    })
}

fn make_store(rt: &HostRuntime, file: &str, first: &[ResourceSetting]) -> Result<(), Ended>
    ensures ends { IfErr result ends.NoStore }
{
    let Ok(new) = new_files(rt.alloc(), file) else {
        return Err(Ended::OutOfMemory);
    };
    if is_lost(rt, &new) {
        return Err(refused(rt, file, file, OpenStoreError::EmptyFile));
    }
    match blank_store(rt, file, &new) {
        Ok(blank) => fill_store(rt, file, &new, blank, first),
        Err(ended) => Err(ended),
    }
}

// Whether there is a log of a file that is gone, which no first start left that was cut off.
fn is_lost(rt: &HostRuntime, new: &NewFiles) -> bool {
    match fs::metadata(rt, new.log_to.as_str()) {
        Ok(log) => log.len() >= FRAMED_LOG as u64 && is_missing(rt, new.db.as_str()),
        Err(_) => false,
    }
}

// Keeps these resources in a new store, and gives it its name. As long as it is open, no other server makes one.
fn fill_store<K: Keeping + Drop>(
    rt: &HostRuntime,
    file: &str,
    new: &NewFiles,
    blank: (K, Tree),
    first: &[ResourceSetting],
) -> Result<(), Ended>
    ensures ends { IfErr result ends.NoStore }
{
    let (mut keeper, mut tree) = blank;
    match keep_first(rt.alloc(), &mut keeper, &mut tree, first) {
        Ok(()) => named(rt, file, new),
        Err(ended) => {
            tell_unkept(rt.alloc(), rt, file, ended);
            discard(rt, new);
            Err(ended)
        }
    }
}

// Gives a new store its name, unless another server made one meanwhile.
fn named(rt: &HostRuntime, file: &str, new: &NewFiles) -> Result<(), Ended>
    ensures ends { IfErr result ends.NotOpened }
{
    if !is_missing(rt, file) {
        discard(rt, new);
        return Err(refused(rt, file, file, OpenStoreError::Busy));
    }
    match put_in_place(rt, file, new) {
        Ok(()) => Ok(()),
        Err(error) => Err(refused_by_io(rt, file, &error)),
    }
}

// Keeps these resources, each over one of the same path, by one commit.
fn keep_first<K: Keeping>(
    alloc: Global,
    keeper: &mut K,
    tree: &mut Tree,
    first: &[ResourceSetting],
) -> Result<(), Ended>
    ensures kept { K.keeps keeper.old tree.old → OnOk result (K.keeps keeper.new tree.new) }
    ensures tree { OnOk result (tree.new ≡ fold with_resource tree.old first.now) }
    ensures ends { IfErr result ends.NoStore }
{
    write_first(alloc, keeper, tree, first)?;
    match keeper.commit() {
        Ok(()) => Ok(()),
        Err(error) => Err(Ended::NotKept(error)),
    }
}

fn write_first<K: Keeping>(
    alloc: Global,
    keeper: &mut K,
    tree: &mut Tree,
    first: &[ResourceSetting],
) -> Result<(), Ended>
    ensures written { (kept : AnyTree) → K.writes keeper.old kept tree.old → OnOk result (K.writes keeper.new kept tree.new) }
    ensures tree { OnOk result (tree.new ≡ fold with_resource tree.old first.now) }
    ensures ends { IfErr result ends.NoStore }
{
    for resource in first {
        write_one(alloc, keeper, tree, resource)?;
    }
    Ok(())
}

fn write_one<K: Keeping>(
    alloc: Global,
    keeper: &mut K,
    tree: &mut Tree,
    setting: &ResourceSetting,
) -> Result<(), Ended>
    ensures written { (kept : AnyTree) → K.writes keeper.old kept tree.old → OnOk result (K.writes keeper.new kept tree.new) }
    ensures tree { OnOk result (tree.new ≡ with_resource tree.old setting.now) }
    ensures ends { IfErr result ends.NoStore }
{
    paths_are_ordered();
    add_resource(alloc, tree, setting)?;
    match keeper.write(&setting.path, tree.get(&setting.path)) {
        Ok(()) => Ok(()),
        Err(error) => Err(Ended::NotKept(error)),
    }
}

// A store without a resource, in new files.
fn blank_store(
    rt: &HostRuntime,
    file: &str,
    new: &NewFiles,
) -> Result<(Keeper<FileStore<FileFrom<Unknown>>>, Tree), Ended>
    ensures ends { IfErr result ends.NotOpened }
{
    clear(rt, new)?;
    create(rt, file, new)?;
    match osc_store::open(rt, new.db.as_str(), Unknown) {
        Ok((store, tree)) => Ok((Keeper::new(rt.alloc(), store), tree)),
        Err((error, _left)) => {
            let ended = refused(rt, file, new.db.as_str(), error);
            discard(rt, new);
            Err(ended)
        }
    }
}

// What a first start that was cut off left is removed: nobody was served from it. Nothing else is.
fn clear(rt: &HostRuntime, new: &NewFiles) -> Result<(), Ended>
    ensures ends { IfErr result ends.NotOpened }
{
    if is_missing(rt, new.db.as_str()) {
        return Ok(());
    }
    let opened = old_store(rt, new.db.as_str(), Unknown)?;
    discard(rt, new);
    drop(opened);
    Ok(())
}

// Makes the file, which this user alone may read and write.
fn create(rt: &HostRuntime, file: &str, new: &NewFiles) -> Result<(), Ended>
    ensures ends { IfErr result ends.NotOpened }
{
    match OpenOptions::new()
        .write(true)
        .create_new(true)
        .mode(0o600)
        .open(rt, new.db.as_str())
    {
        Ok(_file) => Ok(()),
        Err(error) => Err(refused_by_io(rt, file, &error)),
    }
}

// The log first: the file is never there without it, whenever the power goes.
fn put_in_place(rt: &HostRuntime, file: &str, new: &NewFiles) -> io::Result<()> {
    fs::rename(rt, new.log.as_str(), new.log_to.as_str())?;
    sync_folder(rt, new.db.as_str())?;
    fs::rename(rt, new.db.as_str(), file)?;
    sync_folder(rt, file)
}

pub(crate) fn sync_folder(rt: &HostRuntime, file: &str) -> io::Result<()> {
    let mut folder = fs::canonicalize(rt, file)?;
    folder.pop();
    File::open(rt, folder.as_str())?.sync_all()
}

fn discard(rt: &HostRuntime, new: &NewFiles) {
    let _ = fs::remove_file(rt, new.log.as_str());
    let _ = fs::remove_file(rt, new.db.as_str());
}

fn is_missing(rt: &HostRuntime, file: &str) -> bool {
    match fs::symlink_metadata(rt, file) {
        Ok(_) => false,
        Err(error) => error.kind() == ErrorKind::NotFound,
    }
}

// ---- what is told

/// Where a change wasn't kept in the store in this file, a line on the standard error tells why.
pub(crate) fn tell_unkept<R: Eprint>(alloc: Global, runtime: &R, file: &str, ended: Ended) {
    if let Ended::NotKept(error) = ended {
        if let Ok(line) = format!(in alloc; "store {file}: {error}") {
            let _told = runtime.eprintln(line.as_str());
        }
    }
}

/// The store at this path isn't opened, and a line tells why.
pub(crate) fn refused(rt: &HostRuntime, file: &str, at: &str, error: OpenStoreError) -> Ended
    ensures ends { ends.NotOpened result }
{
    if error == OpenStoreError::OutOfMemory {
        return Ended::OutOfMemory;
    }
    if error == OpenStoreError::Failed {
        if let Some(kind) = why_not(rt, at) {
            return refused_by(rt, file, kind);
        }
    }
    if let Ok(line) = refused_line(rt.alloc(), file, error) {
        let _told = rt.eprintln(line.as_str());
    }
    Ended::Unopened(error)
}

fn refused_line(alloc: Global, file: &str, error: OpenStoreError) -> Result<String, AllocError> {
    match error {
        OpenStoreError::NoLog => Ok(format!(in alloc;
            "store {file}: its log {file}-wal is missing"
        )?),
        OpenStoreError::ForeignLog => {
            Ok(format!(in alloc; "store {file}: its log {file}-wal is that of another file")?)
        }
        OpenStoreError::DamagedLog => Ok(format!(in alloc;
            "store {file}: its log {file}-wal is damaged"
        )?),
        _ => Ok(format!(in alloc; "store {file}: {error}")?),
    }
}

pub(crate) fn refused_by_io(rt: &HostRuntime, file: &str, error: &io::Error) -> Ended
    ensures ends { ends.NotOpened result }
{
    match ended_by_io(error) {
        Ended::OutOfMemory => Ended::OutOfMemory,
        _ => refused_by(rt, file, error.kind()),
    }
}

fn refused_by(rt: &HostRuntime, file: &str, kind: ErrorKind) -> Ended
    ensures value { result ≡ Ended.Unopened OpenStoreError.Failed }
    ensures ends { ends.NotOpened result }
{
    if let Ok(line) = format!(in rt.alloc(); "store {file}: {kind}") {
        let _told = rt.eprintln(line.as_str());
    }
    Ended::Unopened(OpenStoreError::Failed)
}

// What the system says of the file.
fn why_not(rt: &HostRuntime, file: &str) -> Option<ErrorKind> {
    match OpenOptions::new().read(true).write(true).open(rt, file) {
        Ok(_file) => None,
        Err(error) => Some(error.kind()),
    }
}
