//! A device that asks its own server, and what others see of it.
ghost use Rattle.std.specs.Prelude.{◌<◌};

use osc_ccm::Suite;
use osc_client::Client;
use osc_device::{Device, DeviceCalls, NewError, OwnDraws, OwnToken, Round, Ruling, ServerParts};
use osc_fixtures::{
    CLIENT, GET, GET_AND_POST, KEY, POST, PUT, SERVER, at, client, drawn, own, request, sent_in,
    straight,
};
use osc_model::{Bytes, ClientResult, Path, Resource, Step};
use osc_scope::Scope;
use osc_token::Audience;
use osc_tree::Tree;
use std::alloc::{AllocError, Global};
use std::process::Abort;
use std::test::*;

/// Every method on `/log`.
const SCOPE: &[u8] = b"\x81\x82\x64/log\x0f";

/// A GET of `/log` without protection.
const UNPROTECTED: &[u8] = b"\x40\x01\0\x01\xb3log";

/// A server without resources.
fn parts(alloc: Global) -> Result<ServerParts, AllocError> {
    Ok(ServerParts {
        tree: Tree::new(alloc),
        open_scope: Scope::new(alloc),
        key: KEY,
        old_key: None,
        audience: Audience::new(alloc, "s")?,
        revoked: None,
        context_seconds: None,
        subtrees: true,
    })
}

/// A token of this scope.
fn own_token(alloc: Global, scope: &[u8]) -> Result<OwnToken, AllocError> {
    Ok(OwnToken {
        id: Bytes::from_slice(alloc, b"own")?,
        secret: Bytes::from_slice(alloc, b"a secret of its own")?,
        scope: Bytes::from_slice(alloc, scope)?,
        iv: [7; 13],
    })
}

/// A device without resources, which may do all of that to itself.
fn device(rt: &impl Abort, alloc: Global) -> Device {
    let parts = parts(alloc).expect(rt, "memory");
    let own = own_token(alloc, SCOPE).expect(rt, "memory");
    Device::new::<Suite>(alloc, parts, own).expect(rt, "a device")
}

/// What the device learnt.
fn learnt(round: &Round) -> Option<&ClientResult> {
    round.learnt.as_ref()?.notes.result()
}

/// Whether the device has posted its token, and has a context.
fn opens(alloc: Global, device: &mut Device, number: u8) -> bool {
    let draws = OwnDraws {
        own: drawn(number),
        server: drawn(number.wrapping_add(100)),
    };
    match device.open::<Suite>(alloc, at(0), draws) {
        Ok(round) => {
            let made = learnt(&round) == Some(&ClientResult::Made);
            drop(round);
            made
        }
        Err(_) => false,
    }
}

/// The code that the device's request on `/log` is answered by; 0 where it isn't.
fn answer(round: &Round) -> u8 {
    match learnt(round) {
        Some(ClientResult::Answer(reply)) => reply.code.0,
        _ => 0,
    }
}

fn asks(alloc: Global, device: &mut Device, number: u8, code: u8, payload: &'static [u8]) -> u8
    requires { 0 < code }
{
    let Ok(request) = request(alloc, b"/log", code, payload) else {
        return 0;
    };
    let draws = OwnDraws {
        own: drawn(number),
        server: drawn(number.wrapping_add(100)),
    };
    let round = device.ask::<Suite>(alloc, at(0), &request, draws);
    drop(request);
    match round {
        Ok(round) => {
            let code = answer(&round);
            drop(round);
            code
        }
        Err(_) => 0,
    }
}

/// Whether `/log` has these bytes.
fn has(alloc: Global, device: &Device, bytes: &[u8]) -> bool {
    match Path::from_text(alloc, b"/log") {
        Ok(Some(path)) => match device.server().tree().get(&path) {
            Some(resource) => resource.payload.as_slice() == bytes,
            None => false,
        },
        _ => false,
    }
}

/// The code that somebody else is answered, who asks without protection; 0 where nothing is.
fn told(alloc: Global, device: &mut Device) -> u8 {
    let step = device.on_datagram::<Suite>(alloc, at(0), CLIENT, UNPROTECTED, &drawn(9));
    let bytes = sent_in(alloc, step);
    let code = bytes.get(1).copied().unwrap_or(0);
    drop(bytes);
    code
}

fn says(rt: &impl Abort, alloc: Global, device: &mut Device) {
    assert!(rt; asks(alloc, device, 1, GET, b"") == 0);
    assert!(rt; opens(alloc, device, 2));
    assert!(rt; asks(alloc, device, 3, GET, b"") == 0x84);
    assert!(rt; asks(alloc, device, 4, PUT, b"a") == 0x41);
    assert!(rt; asks(alloc, device, 5, POST, b"b") == 0x44);
    assert!(rt; has(alloc, device, b"ab"));
    assert!(rt; asks(alloc, device, 6, GET, b"") == 0x45);
    assert!(rt; told(alloc, device) == 0x81);
    assert!(rt; device.next_deadline().is_none());
}

/// Without a context it isn't asked; then what it writes is there. Nobody else reads it without a token.
#[test]
fn a_device_has_its_say(rt: HostRuntime) -> Result<(), Fail> {
    let mut device = device(&rt, rt.alloc());
    says(&rt, rt.alloc(), &mut device);
    drop(device);
    Ok(())
}

fn starts_again(rt: &impl Abort, alloc: Global, device: &mut Device) {
    assert!(rt; opens(alloc, device, 1));
    assert!(rt; asks(alloc, device, 2, PUT, b"a") == 0x41);
    device.restart();
    assert!(rt; asks(alloc, device, 3, PUT, b"b") == 0);
    assert!(rt; has(alloc, device, b"a"));
    assert!(rt; opens(alloc, device, 4));
    assert!(rt; asks(alloc, device, 5, PUT, b"b") == 0x44);
    assert!(rt; has(alloc, device, b"b"));
}

/// After a restart it posts its token again, and its resources are there.
#[test]
fn a_device_starts_again(rt: HostRuntime) -> Result<(), Fail> {
    let mut device = device(&rt, rt.alloc());
    starts_again(&rt, rt.alloc(), &mut device);
    drop(device);
    Ok(())
}

/// A tick of a device at rest sends nothing.
fn ticks(alloc: Global, device: &mut Device) -> bool {
    let round = device.on_tick::<Suite>(alloc, at(1_000), &drawn(9));
    let silent = round.begun.out.as_slice().is_empty() && round.served.is_none();
    drop(round);
    silent
}

#[test]
fn a_tick_at_rest(rt: HostRuntime) -> Result<(), Fail> {
    let mut device = device(&rt, rt.alloc());
    let silent = ticks(rt.alloc(), &mut device);
    drop(device);
    assert!(rt; silent);
    Ok(())
}

/// The code that a call of the device's own is answered by; 0 where it isn't.
fn code_of(round: Result<Round, AllocError>) -> u8 {
    match round {
        Ok(round) => {
            let code = answer(&round);
            drop(round);
            code
        }
        Err(_) => 0,
    }
}

fn log(rt: &impl Abort, alloc: Global) -> Path {
    let path = Path::from_text(alloc, b"/log").expect(rt, "memory");
    path.expect(rt, "a path")
}

fn puts(rt: &impl Abort, alloc: Global, device: &mut Device, number: u8, bytes: &[u8]) -> u8 {
    let payload = Bytes::from_slice(alloc, bytes).expect(rt, "memory");
    let path = log(rt, alloc);
    let resource = Resource {
        format: None,
        payload,
    };
    let draws = OwnDraws {
        own: drawn(number),
        server: drawn(100),
    };
    code_of(device.put::<Suite>(alloc, at(0), path, resource, draws))
}

fn appends(rt: &impl Abort, alloc: Global, device: &mut Device, number: u8, bytes: &[u8]) -> u8 {
    let payload = Bytes::from_slice(alloc, bytes).expect(rt, "memory");
    let path = log(rt, alloc);
    let resource = Resource {
        format: None,
        payload,
    };
    let draws = OwnDraws {
        own: drawn(number),
        server: drawn(100),
    };
    code_of(device.append::<Suite>(alloc, at(0), path, resource, draws))
}

fn reads(rt: &impl Abort, alloc: Global, device: &mut Device, number: u8) -> u8 {
    let path = log(rt, alloc);
    let draws = OwnDraws {
        own: drawn(number),
        server: drawn(100),
    };
    code_of(device.read::<Suite>(alloc, at(0), path, draws))
}

fn removes(rt: &impl Abort, alloc: Global, device: &mut Device, number: u8) -> u8 {
    let path = log(rt, alloc);
    let draws = OwnDraws {
        own: drawn(number),
        server: drawn(100),
    };
    code_of(device.remove::<Suite>(alloc, at(0), path, draws))
}

fn writes(rt: &impl Abort, alloc: Global, device: &mut Device) {
    assert!(rt; opens(alloc, device, 1));
    assert!(rt; puts(rt, alloc, device, 2, b"a") == 0x41);
    assert!(rt; puts(rt, alloc, device, 3, b"b") == 0x44);
    assert!(rt; appends(rt, alloc, device, 4, b"c") == 0x44);
    assert!(rt; has(alloc, device, b"bc"));
    assert!(rt; reads(rt, alloc, device, 5) == 0x45);
    assert!(rt; removes(rt, alloc, device, 6) == 0x42);
    assert!(rt; reads(rt, alloc, device, 7) == 0x84);
}

#[test]
fn each_call_of_its_own(rt: HostRuntime) -> Result<(), Fail> {
    let mut device = device(&rt, rt.alloc());
    writes(&rt, rt.alloc(), &mut device);
    drop(device);
    Ok(())
}

/// Adds every method on a path of `size` bytes: segments of 32 of these letters.
fn push_entry(scope: &mut Vec<u8>, letter: u8, size: u8) -> Result<(), AllocError> {
    scope.extend_from_slice(&[0x82, 0x78, size])?;
    for at in 0..size {
        scope.push(if at % 33 == 0 { b'/' } else { letter })?;
    }
    scope.extend_from_slice(&[0x0f])
}

/// A scope of 782 bytes more than the last of its four paths has.
fn long_scope(alloc: Global, last: u8) -> Result<Vec<u8>, AllocError> {
    let mut scope = Vec::new(alloc);
    scope.extend_from_slice(&[0x84])?;
    push_entry(&mut scope, b'a', 255)?;
    push_entry(&mut scope, b'b', 255)?;
    push_entry(&mut scope, b'c', 255)?;
    push_entry(&mut scope, b'd', last)?;
    Ok(scope)
}

/// A device whose token has that scope. Its post has 116 bytes more than the scope.
fn with_long_scope(alloc: Global, last: u8) -> Result<Device, NewError> {
    let scope = long_scope(alloc, last)?;
    let parts = parts(alloc)?;
    let own = own_token(alloc, &scope)?;
    Device::new::<Suite>(alloc, parts, own)
}

/// A device is made where the post of its token has 1152 bytes, and opens; where it would have one more, there is none.
#[test]
fn a_token_as_long_as_its_post_may_be(rt: HostRuntime) -> Result<(), Fail> {
    let mut device = with_long_scope(rt.alloc(), 254).expect(&rt, "a device");
    let opened = opens(rt.alloc(), &mut device, 1);
    drop(device);
    assert!(rt; opened);
    let error = with_long_scope(rt.alloc(), 255).err();
    assert!(rt; error == Some(NewError::TooLong));
    Ok(())
}

// ---- tokens that the device revokes

/// Every method on `/log`, and PUT and DELETE on the path that revokes the guest's token.
const OWNER: &[u8] = b"\x82\x82\x64/log\x0f\x82\x6b/revoked/01\x0c";

/// The id of the guest's token.
const GUEST: &[u8] = b"\x01";

/// A device with this revocation path, which has a context at its own server.
fn owner(rt: &impl Abort, alloc: Global, revoked: Option<Path>) -> Device {
    let mut parts = parts(alloc).expect(rt, "memory");
    parts.revoked = revoked;
    let own = own_token(alloc, OWNER).expect(rt, "memory");
    let mut device = Device::new::<Suite>(alloc, parts, own).expect(rt, "a device");
    let is_open = opens(alloc, &mut device, 1);
    assert!(rt; is_open);
    device
}

/// What the guest learns of what it sends to the device: 1 of a context, else a code, or 0.
fn comes(
    alloc: Global,
    device: &mut Device,
    guest: &mut Client,
    sends: Result<Step, AllocError>,
    number: u8,
) -> u8 {
    let bytes = sent_in(alloc, sends);
    let answers = device.on_datagram::<Suite>(
        alloc,
        at(0),
        CLIENT,
        bytes.as_slice(),
        &drawn(number),
    );
    drop(bytes);
    let bytes = sent_in(alloc, answers);
    let heard = guest.on_datagram::<Suite>(alloc, at(0), SERVER, bytes.as_slice());
    drop(bytes);
    let Ok(step) = heard else {
        return 0;
    };
    let code = match step.notes.result() {
        Some(ClientResult::Made) => 1,
        Some(ClientResult::Answer(reply)) => reply.code.0,
        Some(ClientResult::Unverified(code)) => code.0,
        _ => 0,
    };
    drop(step);
    code
}

/// What the guest learns of a post of its token.
fn posts(alloc: Global, device: &mut Device, guest: &mut Client, number: u8) -> u8 {
    let sends = guest.exchange(alloc, at(0), &drawn(number));
    comes(alloc, device, guest, sends, number.wrapping_add(100))
}

/// What it learns of a POST on `/log`.
fn logs(alloc: Global, device: &mut Device, guest: &mut Client, number: u8) -> u8 {
    let Ok(request) = request(alloc, b"/log", POST, b"a") else {
        return 0;
    };
    let sends = guest.ask::<Suite>(alloc, at(0), &request, &drawn(number));
    drop(request);
    comes(alloc, device, guest, sends, number.wrapping_add(100))
}

/// The code that the device is answered where it revokes the guest's token, or lets it in again; 0 where it isn't, 1 where it has no path for it.
fn changes(alloc: Global, device: &mut Device, number: u8, is_out: bool) -> u8 {
    let draws = OwnDraws {
        own: drawn(number),
        server: drawn(number.wrapping_add(100)),
    };
    let changed = if is_out {
        device.revoke::<Suite>(alloc, at(0), GUEST, draws)
    } else {
        device.allow::<Suite>(alloc, at(0), GUEST, draws)
    };
    match changed {
        Ok(Some(round)) => {
            let code = answer(&round);
            drop(round);
            code
        }
        Ok(None) => 1,
        Err(_) => 0,
    }
}

fn is_out_and_back(rt: &impl Abort, alloc: Global, device: &mut Device, guest: &mut Client) {
    assert!(rt; posts(alloc, device, guest, 2) == 1);
    assert!(rt; logs(alloc, device, guest, 3) == 0x41);
    assert!(rt; changes(alloc, device, 4, true) == 0x41);
    assert!(rt; logs(alloc, device, guest, 5) == 0x81);
    assert!(rt; posts(alloc, device, guest, 6) == 0x81);
    assert!(rt; changes(alloc, device, 7, true) == 0x44);
    assert!(rt; changes(alloc, device, 8, false) == 0x42);
    assert!(rt; posts(alloc, device, guest, 9) == 1);
    assert!(rt; logs(alloc, device, guest, 10) == 0x44);
}

/// The device takes a guest's token back, in use as it is, and lets it in again.
#[test]
fn a_device_revokes(rt: HostRuntime) -> Result<(), Fail> {
    let path = Path::from_text(rt.alloc(), b"/revoked")?;
    let mut guest = client(rt.alloc(), own(1, GET_AND_POST), straight())?;
    let mut device = owner(&rt, rt.alloc(), path);
    is_out_and_back(&rt, rt.alloc(), &mut device, &mut guest);
    drop(device);
    drop(guest);
    Ok(())
}

#[test]
fn nothing_is_revoked_without_a_path(rt: HostRuntime) -> Result<(), Fail> {
    let mut device = owner(&rt, rt.alloc(), None);
    let revokes = changes(rt.alloc(), &mut device, 2, true);
    let allows = changes(rt.alloc(), &mut device, 3, false);
    drop(device);
    assert!(rt; revokes == 1);
    assert!(rt; allows == 1);
    Ok(())
}

// ---- a place of its own

/// GET on `/log`, and what is below it.
const BELOW: &[u8] = b"\x81\x82\x64/log\x11";

/// What a guest of this number learns of a post of its token, with which it can GET `/log`, and what is below it.
fn guest_posts(rt: &impl Abort, alloc: Global, device: &mut Device, number: u8) -> u8 {
    let guest = client(alloc, own(number, BELOW), straight());
    let mut guest = guest.expect(rt, "memory");
    let learnt = posts(alloc, device, &mut guest, number);
    drop(guest);
    learnt
}

fn others_come_first(rt: &impl Abort, alloc: Global, device: &mut Device) {
    for number in 1..64 {
        assert!(rt; guest_posts(rt, alloc, device, number) == 1);
    }
    assert!(rt; guest_posts(rt, alloc, device, 64) == 0xa3);
    assert!(rt; opens(alloc, device, 65));
    assert!(rt; guest_posts(rt, alloc, device, 66) == 0xa3);
    device.restart();
    assert!(rt; guest_posts(rt, alloc, device, 67) == 1);
    assert!(rt; opens(alloc, device, 68));
}

/// 63 others have a context at once, and no more: the last of the 64 places is the device's own, whenever it comes.
#[test]
fn a_device_has_a_place(rt: HostRuntime) -> Result<(), Fail> {
    let mut device = device(&rt, rt.alloc());
    others_come_first(&rt, rt.alloc(), &mut device);
    drop(device);
    Ok(())
}

/// A device whose server takes no scope that reaches below its paths; its own token has this one.
fn without_subtrees(alloc: Global, scope: &[u8]) -> Result<Device, NewError> {
    let mut parts = parts(alloc)?;
    parts.subtrees = false;
    let own = own_token(alloc, scope)?;
    Device::new::<Suite>(alloc, parts, own)
}

/// Such a scope is refused to others, and of the device's own token no device is made.
#[test]
fn scopes_that_reach_below(rt: HostRuntime) -> Result<(), Fail> {
    let error = without_subtrees(rt.alloc(), BELOW).err();
    assert!(rt; error == Some(NewError::Subtrees));
    let mut device = without_subtrees(rt.alloc(), SCOPE).expect(&rt, "a device");
    let is_open = opens(rt.alloc(), &mut device, 1);
    let guest = guest_posts(&rt, rt.alloc(), &mut device, 2);
    drop(device);
    assert!(rt; is_open);
    assert!(rt; guest == 0x80);
    Ok(())
}

fn rules(
    rt: &impl Abort,
    alloc: Global,
    device: &mut Device,
    ruling: Ruling,
    number: u8,
) -> (u8, bool) {
    let draws = OwnDraws {
        own: drawn(number),
        server: drawn(number.wrapping_add(100)),
    };
    let ruled = device.rule::<Suite>(alloc, at(0), ruling, GUEST, draws);
    let ruled = ruled.expect(rt, "memory").expect(rt, "a path");
    let is_revoked = ruled.is_revoked;
    let round = ruled.into_round();
    let code = answer(&round);
    drop(round);
    (code, is_revoked)
}

/// What a ruling tells is what is so, whatever the answer's code.
#[test]
fn a_ruling_tells_what_is_so(rt: HostRuntime) -> Result<(), Fail> {
    let path = Path::from_text(rt.alloc(), b"/revoked")?;
    let mut device = owner(&rt, rt.alloc(), path);
    let revoked = rules(&rt, rt.alloc(), &mut device, Ruling::Revoke, 2);
    let again = rules(&rt, rt.alloc(), &mut device, Ruling::Revoke, 3);
    let allowed = rules(&rt, rt.alloc(), &mut device, Ruling::Allow, 4);
    drop(device);
    assert!(rt; revoked == (0x41, true));
    assert!(rt; again == (0x44, true));
    assert!(rt; allowed == (0x42, false));
    Ok(())
}
