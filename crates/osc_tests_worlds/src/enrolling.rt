//! Clients that can't be enrolled, and one that can.

use crate::common::{SCOPE, counts, exchanges, start};
use crate::quiet::settles;
use osc_authz::{EnrollError, GrantError};
use osc_ccm::Suite;
use osc_fixtures::{CLIENT, PROXY, SERVER, straight};
use osc_model::{Algorithm, Bytes, Peer};
use osc_proxy::Targets;
use osc_token::{Audience, Claims, InputMaterial};
use osc_tree::Tree;
use osc_world::{AdmitError, NewHolder, PlaceError, Start};
use std::alloc::{AllocError, Global};
use std::process::Abort;
use std::test::*;

/// A scope, and how long the audience, the secret, the salt and the id context are; each of their bytes is an `a`.
type Row = (&'static [u8], usize, usize, usize, usize);

/// One that has no method.
const NO_SCOPE: &[u8] = b"\x81\x82\x64/log\0";

const GOOD: Row = (SCOPE, 1, 16, 0, 0);

/// Who is refused, and why: the first thing against it.
const REFUSED: [(Row, EnrollError); 9] = [
    ((NO_SCOPE, 1, 16, 0, 0), EnrollError::BadScope),
    ((b"", 1, 16, 0, 0), EnrollError::BadScope),
    ((NO_SCOPE, 65536, 0, 65, 65), EnrollError::BadScope),
    ((SCOPE, 65536, 0, 65, 65), EnrollError::TooLong),
    (
        (SCOPE, 1, 0, 65, 65),
        EnrollError::Grant(GrantError::Secret),
    ),
    ((SCOPE, 1, 65, 0, 0), EnrollError::Grant(GrantError::Secret)),
    ((SCOPE, 1, 64, 65, 65), EnrollError::Grant(GrantError::Salt)),
    (
        (SCOPE, 1, 1, 64, 65),
        EnrollError::Grant(GrantError::IdContext),
    ),
    (
        (SCOPE, 1, 1, 0, 65),
        EnrollError::Grant(GrantError::IdContext),
    ),
];

fn bytes(alloc: Global, length: usize) -> Result<Bytes, AllocError> {
    Bytes::from_slice(alloc, "a".repeat(alloc, length)?.as_bytes())
}

fn material(alloc: Global, row: Row) -> Result<InputMaterial, AllocError> {
    let (_, _, secret, salt, id_context) = row;
    Ok(InputMaterial {
        id: Bytes::from_slice(alloc, &[1])?,
        secret: bytes(alloc, secret)?,
        salt: bytes(alloc, salt)?,
        id_context: Some(bytes(alloc, id_context)?),
        alg: Algorithm::EightByteTag,
    })
}

fn claims(alloc: Global, row: Row) -> Result<Claims, AllocError> {
    let audience = Audience::new(alloc, "a".repeat(alloc, row.1)?.as_str())?;
    let material = material(alloc, row)?;
    Ok(Claims {
        audience,
        not_before: None,
        expires: None,
        material,
        scope: Bytes::from_slice(alloc, row.0)?,
    })
}

/// Why the client of this row isn't enrolled there, if it isn't.
fn refusal(alloc: Global, start: &mut Start, at: Peer, row: Row) -> Option<AdmitError> {
    match claims(alloc, row) {
        Ok(claims) => {
            let holder = NewHolder {
                at,
                way: straight(),
                claims,
                iv: [1; 13],
            };
            start.enroll::<Suite>(alloc, holder).err()
        }
        Err(_) => Some(AdmitError::Refused(EnrollError::Memory)),
    }
}

/// In the world that begins so, the first client is the one that was enrolled, and its token is good.
fn begins(rt: &impl Abort, alloc: Global, start: Start) {
    let mut world = start.begin(alloc).expect(rt, "memory");
    assert!(rt; world.minted().len() == 1);
    assert!(rt; exchanges(alloc, &mut world, 200, 0));
    assert!(rt; settles(alloc, &mut world));
    assert!(rt; world.sent().len() == 2);
    assert!(rt; counts(alloc, &world) == (0, 0, 0));
    drop(world);
}

#[test]
fn who_is_refused(rt: HostRuntime) {
    let mut start = start(rt.alloc(), Tree::new(rt.alloc()), "a").expect(&rt, "memory");
    for &(row, error) in &REFUSED {
        assert!(rt;
            refusal(rt.alloc(), &mut start, CLIENT, row) == Some(AdmitError::Refused(error)),
            "{error}"
        );
    }
    assert!(rt; refusal(rt.alloc(), &mut start, CLIENT, GOOD) == None);
    begins(&rt, rt.alloc(), start);
}

/// A proxy with no target is added there.
fn placed(alloc: Global, start: &mut Start, at: Peer) -> Result<(), PlaceError> {
    start.add_proxy(alloc, at, Targets::new(alloc))
}

/// No two nodes share an address, whatever the claims are; who was refused takes none.
fn takes_no_second(rt: &impl Abort, alloc: Global, start: &mut Start) {
    assert!(rt; placed(alloc, start, SERVER) == Err(PlaceError::AddressTaken));
    assert!(rt;
        refusal(alloc, start, CLIENT, REFUSED[0].0)
            == Some(AdmitError::Refused(EnrollError::BadScope))
    );
    assert!(rt; !start.is_taken(CLIENT));
    assert!(rt; refusal(alloc, start, CLIENT, GOOD) == None);
    assert!(rt; placed(alloc, start, PROXY) == Ok(()));
    for &at in &[SERVER, CLIENT, PROXY] {
        assert!(rt; start.is_taken(at));
        for &row in &[GOOD, REFUSED[0].0] {
            assert!(rt; refusal(alloc, start, at, row) == Some(AdmitError::AddressTaken));
        }
        assert!(rt; placed(alloc, start, at) == Err(PlaceError::AddressTaken));
    }
}

#[test]
fn addresses_of_their_own(rt: HostRuntime) {
    let mut start = start(rt.alloc(), Tree::new(rt.alloc()), "a").expect(&rt, "memory");
    takes_no_second(&rt, rt.alloc(), &mut start);
    begins(&rt, rt.alloc(), start);
}
