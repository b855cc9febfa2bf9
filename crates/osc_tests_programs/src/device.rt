//! The power goes at each call of the disk of a device, among its own writes and those of a holder.
use crate::disks::{pair, start};
use osc_ccm::Suite;
use osc_client::Client;
use osc_device::{
    CallError, DeviceCalls, KeptDevice, NewError, OwnDraws, OwnToken, Round, ServerParts,
};
use osc_fixtures::{
    CLIENT, GET_AND_POST, KEY, POST, SERVER, at, client, drawn, own, request, sent_in, straight,
};
use osc_model::{Bytes, Path, Resource, Step};
use osc_scope::Scope;
use osc_store::{Keeper, Keeping, open_files};
use osc_token::Audience;
use osc_tree::Tree;
use sqlite_disk::{Disk, Files, Fuse, Memory};
use sqlite_store::FileStore;
use std::alloc::{AllocError, Global};
use std::test::Fail;

const NEVER: u64 = 1 << 40;

/// More calls than all steps make of the log.
const LOG_CALLS: u64 = 60;

/// More than they make of the database.
const DB_CALLS: u64 = 24;

/// What `/log` has before the first of the calls and after each: the device posts its token, puts and appends; the holder posts its token and
/// appends; the device removes; the holder makes it new.
const AFTER: [Option<&[u8]>; 8] = [
    None,
    None,
    Some(b"a"),
    Some(b"ab"),
    Some(b"ab"),
    Some(b"abc"),
    None,
    Some(b"c"),
];

/// Every method on `/log`.
const SCOPE: &[u8] = b"\x81\x82\x64/log\x0f";

fn log(alloc: Global) -> Result<Path, AllocError> {
    match Path::from_text(alloc, b"/log")? {
        Some(path) => Ok(path),
        None => Err(AllocError),
    }
}

fn parts(alloc: Global, tree: Tree) -> Result<ServerParts, AllocError> {
    Ok(ServerParts {
        tree,
        open_scope: Scope::new(alloc),
        key: KEY,
        old_key: None,
        audience: Audience::new(alloc, "s")?,
        revoked: None,
        context_seconds: None,
        subtrees: true,
    })
}

fn own_token(alloc: Global) -> Result<OwnToken, AllocError> {
    Ok(OwnToken {
        id: Bytes::from_slice(alloc, b"own")?,
        secret: Bytes::from_slice(alloc, b"a secret of its own")?,
        scope: Bytes::from_slice(alloc, SCOPE)?,
        iv: [7; 13],
    })
}

/// A device that begins with what a store was opened with.
fn device<K: Keeping + Drop>(
    alloc: Global,
    keeper: K,
    tree: Tree,
) -> Result<KeptDevice<K>, NewError> {
    let own = own_token(alloc)?;
    let parts = parts(alloc, tree)?;
    KeptDevice::new::<Suite>(alloc, parts, own, keeper)
}

fn draws(number: u8) -> OwnDraws {
    OwnDraws {
        own: drawn(number),
        server: drawn(number.wrapping_add(100)),
    }
}

fn value(alloc: Global, bytes: &[u8]) -> Result<Resource, AllocError> {
    let payload = Bytes::from_slice(alloc, bytes)?;
    Ok(Resource {
        format: None,
        payload,
    })
}

// ---- the calls

/// Whether the round is handed out.
fn told(round: Result<Round, CallError>) -> Result<(), CallError> {
    match round {
        Ok(_) => Ok(()),
        Err(error) => Err(error),
    }
}

fn opens<K: Keeping>(
    alloc: Global,
    device: &mut KeptDevice<K>,
    number: u8,
) -> Result<(), CallError> {
    told(device.open::<Suite>(alloc, at(0), draws(number)))
}

fn puts<K: Keeping>(
    alloc: Global,
    device: &mut KeptDevice<K>,
    number: u8,
) -> Result<(), CallError> {
    let path = log(alloc)?;
    let value = value(alloc, b"a")?;
    told(device.put::<Suite>(alloc, at(0), path, value, draws(number)))
}

fn appends<K: Keeping>(
    alloc: Global,
    device: &mut KeptDevice<K>,
    number: u8,
) -> Result<(), CallError> {
    let path = log(alloc)?;
    let value = value(alloc, b"b")?;
    told(device.append::<Suite>(alloc, at(0), path, value, draws(number)))
}

fn removes<K: Keeping>(
    alloc: Global,
    device: &mut KeptDevice<K>,
    number: u8,
) -> Result<(), CallError> {
    let path = log(alloc)?;
    told(device.remove::<Suite>(alloc, at(0), path, draws(number)))
}

/// What comes to the device, as it is sent; the bytes that are handed out of it.
fn heard<K: Keeping>(
    alloc: Global,
    device: &mut KeptDevice<K>,
    bytes: &[u8],
    number: u8,
) -> Result<Vec<u8>, CallError> {
    match device.on_datagram::<Suite>(alloc, at(0), CLIENT, bytes, &drawn(number)) {
        Ok(step) => Ok(sent_in(alloc, Ok(step))),
        Err(error) => Err(error),
    }
}

/// What a holder sends comes to the device, and what is handed out of that comes back.
fn carried<K: Keeping>(
    alloc: Global,
    device: &mut KeptDevice<K>,
    guest: &mut Client,
    sends: Result<Step, AllocError>,
    number: u8,
) -> Result<(), CallError> {
    let bytes = sent_in(alloc, sends);
    let answer = heard(alloc, device, &bytes, number)?;
    let learnt = guest.on_datagram::<Suite>(alloc, at(0), SERVER, &answer);
    drop(learnt);
    Ok(())
}

fn guest_posts<K: Keeping>(
    alloc: Global,
    device: &mut KeptDevice<K>,
    guest: &mut Client,
    number: u8,
) -> Result<(), CallError> {
    let sends = guest.exchange(alloc, at(0), &drawn(number));
    carried(alloc, device, guest, sends, number.wrapping_add(100))
}

fn guest_appends<K: Keeping>(
    alloc: Global,
    device: &mut KeptDevice<K>,
    guest: &mut Client,
    number: u8,
) -> Result<(), CallError> {
    let request = request(alloc, b"/log", POST, b"c")?;
    let sends = guest.ask::<Suite>(alloc, at(0), &request, &drawn(number));
    drop(request);
    carried(alloc, device, guest, sends, number.wrapping_add(100))
}

/// The call of this number.
fn calls<K: Keeping>(
    alloc: Global,
    device: &mut KeptDevice<K>,
    guest: &mut Client,
    number: u8,
) -> Result<(), CallError> {
    match number {
        1 => opens(alloc, device, number),
        2 => puts(alloc, device, number),
        3 => appends(alloc, device, number),
        4 => guest_posts(alloc, device, guest, number),
        6 => removes(alloc, device, number),
        _ => guest_appends(alloc, device, guest, number),
    }
}

// ---- after a change that isn't kept

fn tick<K: Keeping>(alloc: Global, device: &mut KeptDevice<K>) -> Result<(), CallError> {
    told(device.on_tick::<Suite>(alloc, at(1_000), &drawn(9)))
}

fn reads<K: Keeping>(alloc: Global, device: &mut KeptDevice<K>) -> Result<(), CallError> {
    let path = log(alloc)?;
    told(device.read::<Suite>(alloc, at(0), path, draws(10)))
}

fn revokes<K: Keeping>(alloc: Global, device: &mut KeptDevice<K>) -> Option<CallError> {
    device
        .revoke::<Suite>(alloc, at(0), b"\x01", draws(11))
        .err()
}

fn allows<K: Keeping>(alloc: Global, device: &mut KeptDevice<K>) -> Option<CallError> {
    device
        .allow::<Suite>(alloc, at(0), b"\x01", draws(12))
        .err()
}

/// Whether each of the calls answers this.
fn all_answer<K: Keeping>(
    alloc: Global,
    device: &mut KeptDevice<K>,
    guest: &mut Client,
    error: CallError,
) -> bool {
    let mut all = true;
    for number in 1..8u8 {
        let answer = calls(alloc, device, guest, number);
        all = all && answer == Err(error);
    }
    all
}

/// Whether each later call answers this and changes no resource.
fn stays<K: Keeping>(
    alloc: Global,
    device: &mut KeptDevice<K>,
    guest: &mut Client,
    error: CallError,
) -> bool {
    let resources = device.device().server().tree().len();
    let why = device.unkept().map(CallError::NotKept) == Some(error);
    let restarts = device.restart() == Err(error);
    let ticks = tick(alloc, device) == Err(error);
    let reads = reads(alloc, device) == Err(error);
    let revokes = revokes(alloc, device) == Some(error);
    let allows = allows(alloc, device) == Some(error);
    let all = all_answer(alloc, device, guest, error);
    let same = device.device().server().tree().len() == resources;
    why && restarts && ticks && reads && revokes && allows && all && same
}

// ---- a life

/// What became of a device: how many of the calls handed something out; whether the next one failed, so that it may be kept; and whether all that
/// came after that did, too.
#[derive(Clone, Copy)]
struct Life {
    handed: usize,
    may_be_more: bool,
    stays: bool,
}

fn lives<K: Keeping>(alloc: Global, device: &mut KeptDevice<K>, guest: &mut Client) -> Life {
    let mut handed = 0usize;
    for number in 1..8u8 {
        match calls(alloc, device, guest, number) {
            Ok(()) => handed = handed.saturating_add(1),
            Err(error) => {
                let stays = stays(alloc, device, guest, error);
                return Life {
                    handed,
                    may_be_more: true,
                    stays,
                };
            }
        }
    }
    Life {
        handed,
        may_be_more: false,
        stays: true,
    }
}

/// The same, with a holder.
fn lives_with_a_guest<K: Keeping>(
    alloc: Global,
    device: &mut KeptDevice<K>,
) -> Result<Life, AllocError> {
    let mut guest = client(alloc, own(1, GET_AND_POST), straight())?;
    let life = lives(alloc, device, &mut guest);
    drop(guest);
    Ok(life)
}

fn closed<D: Disk + Drop>(device: KeptDevice<Keeper<FileStore<D>>>) -> Files<D> {
    device.into_keeper().into_store().close()
}

/// The life of a device over this store, and the files that it leaves.
fn lives_over<D: Disk + Drop>(
    alloc: Global,
    store: FileStore<D>,
    tree: Tree,
) -> Result<(Files<D>, Life), Fail> {
    let mut device = device(alloc, Keeper::new(alloc, store), tree)?;
    let life = lives_with_a_guest(alloc, &mut device);
    let files = closed(device);
    Ok((files, life?))
}

// ---- cuts

/// What is left where the power went.
struct Cut {
    log: Vec<u8>,
    db: Vec<u8>,
    life: Life,
}

impl Drop for Cut {
    fn drop(self) {
        let Cut {
            log: _,
            db: _,
            life: _,
        } = self;
    }
}

fn cut_of(alloc: Global, files: &Files<Fuse<Memory>>, life: Life) -> Result<Cut, AllocError> {
    let log = Vec::from_slice(alloc, files.log.inner().bytes())?;
    let db = Vec::from_slice(alloc, files.db.inner().bytes())?;
    Ok(Cut { log, db, life })
}

/// All calls of a device, over disks that fail after these numbers of theirs.
fn cut_at(alloc: Global, log_calls: u64, db_calls: u64) -> Result<Cut, Fail> {
    let files = Files {
        log: Fuse::new(Memory::new(alloc), log_calls),
        db: Fuse::new(Memory::new(alloc), db_calls),
    };
    let (files, life) = match open_files(alloc, files, 7) {
        Ok((store, tree)) => lives_over(alloc, store, tree)?,
        Err((_error, left)) => (
            left.into_files(),
            Life {
                handed: 0,
                may_be_more: false,
                stays: true,
            },
        ),
    };
    let cut = cut_of(alloc, &files, life);
    drop(files);
    Ok(cut?)
}

/// Whether the tree has this at `/log`, and nothing else.
fn has(alloc: Global, tree: &Tree, bytes: Option<&[u8]>) -> Result<bool, AllocError> {
    let path = log(alloc)?;
    Ok(match (tree.get(&path), bytes) {
        (Some(resource), Some(bytes)) => tree.len() == 1 && resource.payload.as_slice() == bytes,
        (None, None) => tree.is_empty(),
        _ => false,
    })
}

/// Whether the tree is that after the calls that were handed out; or after one more, where that one may be kept.
fn is_left(alloc: Global, tree: &Tree, life: &Life) -> Result<bool, AllocError> {
    for (calls, bytes) in AFTER.iter().enumerate() {
        let counts = calls == life.handed
            || (life.may_be_more && calls == life.handed.saturating_add(1));
        if counts && has(alloc, tree, *bytes)? {
            return Ok(true);
        }
    }
    Ok(false)
}

/// How many of the calls handed something out; an error where the next start doesn't find what they left, or a later call did anything.
fn handed(alloc: Global, log_calls: u64, db_calls: u64) -> Result<usize, Fail> {
    let cut = cut_at(alloc, log_calls, db_calls)?;
    match start(alloc, &cut.log, &cut.db)? {
        Ok(tree) => {
            if is_left(alloc, &tree, &cut.life)? && cut.life.stays {
                Ok(cut.life.handed)
            } else {
                Err(Fail::from("another tree, or another step"))
            }
        }
        Err(error) => Err(Fail::from(error)),
    }
}

#[test]
fn a_device_is_cut_at_each_call_of_its_log(rt: HostRuntime) -> Result<(), Fail> {
    let mut most = 0;
    for calls in 0..LOG_CALLS {
        let handed = handed(rt.alloc(), calls, NEVER)?;
        assert!(&rt; handed >= most, "{calls}");
        most = handed;
    }
    assert_eq!(&rt; most, 7);
    Ok(())
}

#[test]
fn a_device_is_cut_at_each_call_of_its_database(rt: HostRuntime) -> Result<(), Fail> {
    let mut most = 0;
    for calls in 0..DB_CALLS {
        let handed = handed(rt.alloc(), NEVER, calls)?;
        assert!(&rt; handed >= most, "{calls}");
        most = handed;
    }
    assert_eq!(&rt; most, 7);
    Ok(())
}

// ---- the next life

/// Whether the device began with what was kept, and the holder posts its token again and appends.
fn goes_on<K: Keeping>(
    alloc: Global,
    device: &mut KeptDevice<K>,
    guest: &mut Client,
) -> Result<bool, AllocError> {
    let begins = has(alloc, device.device().server().tree(), Some(b"c"))?;
    let posts = guest_posts(alloc, device, guest, 20).is_ok();
    let appends = guest_appends(alloc, device, guest, 21).is_ok();
    let goes = has(alloc, device.device().server().tree(), Some(b"cc"))?;
    Ok(begins && posts && appends && goes)
}

fn goes_on_with_a_guest<K: Keeping>(
    alloc: Global,
    device: &mut KeptDevice<K>,
) -> Result<bool, AllocError> {
    let mut guest = client(alloc, own(1, GET_AND_POST), straight())?;
    let goes = goes_on(alloc, device, &mut guest);
    drop(guest);
    goes
}

fn goes_on_over<K: Keeping + Drop>(alloc: Global, keeper: K, tree: Tree) -> Result<bool, Fail> {
    let mut device = device(alloc, keeper, tree)?;
    let goes = goes_on_with_a_guest(alloc, &mut device);
    drop(device);
    Ok(goes?)
}

#[test]
fn a_device_goes_on_with_what_was_kept(rt: HostRuntime) -> Result<(), Fail> {
    let alloc = rt.alloc();
    let cut = cut_at(alloc, NEVER, NEVER)?;
    let files = pair(alloc, &cut.log, &cut.db)?;
    drop(cut);
    match open_files(alloc, files, 8) {
        Ok((store, tree)) => {
            let keeper = Keeper::new(alloc, store);
            assert!(&rt; goes_on_over(alloc, keeper, tree)?);
        }
        Err((error, _left)) => return Err(Fail::from(error)),
    }
    Ok(())
}

// ---- without memory

/// The device's own calls that change `/log`, each made again where memory was refused; whether all are made. They aren't where the store itself
/// failed.
fn changes<K: Keeping>(
    alloc: Global,
    device: &mut KeptDevice<K>,
    guest: &mut Client,
) -> Result<bool, CallError> {
    for number in [2, 3, 6] {
        if calls(alloc, device, guest, number).is_err() {
            if device.unkept().is_some() {
                return Ok(false);
            }
            calls(alloc, device, guest, number)?;
        }
    }
    Ok(true)
}

/// Whether a tree has at `/log` what the other has there.
fn agrees(alloc: Global, tree: &Tree, other: &Tree) -> Result<bool, AllocError> {
    let path = log(alloc)?;
    Ok(match (tree.get(&path), other.get(&path)) {
        (Some(one), Some(two)) => one.payload.as_slice() == two.payload.as_slice(),
        (None, None) => true,
        _ => false,
    })
}

/// A device that changes `/log` over this store: the files that it leaves, whether all was kept, and the tree that it answered from. None where
/// memory was refused before its first change.
fn changed_over<D: Disk + Drop>(
    alloc: Global,
    store: FileStore<D>,
    tree: Tree,
) -> Result<Option<(Files<D>, bool, Tree)>, Fail> {
    let Ok(mut device) = device(alloc, Keeper::new(alloc, store), tree) else {
        return Ok(None);
    };
    let Ok(mut guest) = client(alloc, own(1, GET_AND_POST), straight()) else {
        return Ok(None);
    };
    if opens(alloc, &mut device, 1).is_err() {
        return Ok(None);
    }
    let all = changes(alloc, &mut device, &mut guest)?;
    drop(guest);
    let answered = copied(alloc, device.device().server().tree())?;
    Ok(Some((closed(device), all, answered)))
}

/// A copy of a tree, made again where memory was refused.
fn copied(alloc: Global, tree: &Tree) -> Result<Tree, AllocError> {
    match tree.copy(alloc) {
        Ok(copy) => Ok(copy),
        Err(_) => tree.copy(alloc),
    }
}

/// What a start finds in these files, looked for again where memory was refused.
fn found_in(alloc: Global, files: &Files<Memory>) -> Result<Tree, Fail> {
    match start(alloc, files.log.bytes(), files.db.bytes())? {
        Ok(found) => Ok(found),
        Err(_) => match start(alloc, files.log.bytes(), files.db.bytes())? {
            Ok(found) => Ok(found),
            Err(error) => Err(Fail::from(error)),
        },
    }
}

/// Whether a start finds in these files what was answered, looked at again where memory was refused.
fn is_kept(alloc: Global, files: &Files<Memory>, answered: &Tree) -> Result<bool, Fail> {
    let found = found_in(alloc, files)?;
    match agrees(alloc, &found, answered) {
        Ok(same) => Ok(same),
        Err(_) => Ok(agrees(alloc, &found, answered)?),
    }
}

/// Run with each allocation refused in turn: a change is made and kept, or it isn't made, and the device goes on.
#[test]
fn a_change_without_memory(rt: HostRuntime) -> Result<(), Fail> {
    let alloc = rt.alloc();
    let files = pair(alloc, b"", b"")?;
    let Ok((store, tree)) = open_files(alloc, files, 7) else {
        return Ok(());
    };
    if let Some((files, all, answered)) = changed_over(alloc, store, tree)? {
        assert!(&rt; !all || is_kept(alloc, &files, &answered)?);
    }
    Ok(())
}
