//! The lock: a device whose holders write what they want, and which writes what is, and what happened, by its own say.
use crate::bolt::{Bolt, Motor};
use crate::fault::Fault;
use crate::holder::{AUDIENCE, KEY, scope};
use crate::place::Place;
use crate::supply::Draws;
use crate::wire::sent;
use crate::wish::{Wish, heard};
use crate::words::{Dotted, Shown};
use osc_ccm::Suite;
use osc_device::{Device, DeviceCalls, OwnDraws, OwnToken, Round, ServerParts};
use osc_model::{Bytes, ClientResult, Code, Moment, Peer, Resource};
use osc_scope::Scope;
use osc_token::Audience;
use osc_tree::Tree;
use std::alloc::Global;
use std::io;

/// The lock.
#[derive(Drop)]
pub struct Lock {
    device: Device,
    motor: Motor,
    // What is still to be tried.
    wish: Option<Wish>,
    draws: Draws,
}

/// A server without resources, of which nothing can be had without a token.
fn parts(alloc: Global) -> Result<ServerParts, Fault> {
    Ok(ServerParts {
        tree: Tree::new(alloc),
        open_scope: Scope::new(alloc),
        key: KEY,
        old_key: None,
        audience: Audience::new(alloc, AUDIENCE)?,
        revoked: None,
        context_seconds: None,
        subtrees: true,
    })
}

/// The token of the lock itself. A real device draws its secret when it starts, and has a number for each start in the IV, since under a key an IV is
/// used for one token alone.
fn own_token(alloc: Global) -> Result<OwnToken, Fault> {
    let id = Bytes::from_slice(alloc, b"own")?;
    let secret = Bytes::from_slice(alloc, b"known to nobody else")?;
    Ok(OwnToken {
        id,
        secret,
        scope: scope(alloc, b"/lock/actual:PUT,/log:PUT+POST")?,
        iv: [0; 13],
    })
}

fn device(alloc: Global) -> Result<Device, Fault> {
    let parts = parts(alloc)?;
    let own = own_token(alloc)?;
    Ok(Device::new::<Suite>(alloc, parts, own)?)
}

/// The code that the lock's server answered to the lock's own request, if it did.
fn answered(round: Round) -> Option<Code> {
    let code = match learnt(&round) {
        Some(ClientResult::Answer(reply)) => Some(reply.code),
        _ => None,
    };
    drop(round);
    code
}

fn learnt(round: &Round) -> Option<&ClientResult> {
    round.learnt.as_ref()?.notes.result()
}

/// Whether the lock's own post made a context.
fn is_made(round: Round) -> bool {
    let made = learnt(&round) == Some(&ClientResult::Made);
    drop(round);
    made
}

/// Tells what the lock's server answered to a request of the lock's own.
fn tell_own(
    rt: &impl Print,
    method: &str,
    place: Place,
    text: &[u8],
    code: Option<Code>,
) -> io::Result<()> {
    let place = Shown(place.text());
    let text = Shown(text);
    match code {
        Some(code) => println!(rt; "lock: {method} {place} {text}: {}", Dotted(code)),
        // There was no memory for one of the steps, or the lock has no context.
        None => println!(rt; "lock: {method} {place} {text}: no answer"),
    }
}

impl Lock {
    /// A lock that has no context of its own yet, and has written nothing.
    pub fn new(alloc: Global) -> Result<Lock, Fault> {
        Ok(Lock {
            device: device(alloc)?,
            motor: Motor::Runs,
            wish: None,
            draws: Draws::new(1),
        })
    }

    /// The lock posts its own token, writes where the bolt is, and that it has started.
    pub fn starts(
        &mut self,
        rt: &impl Print,
        alloc: Global,
        now: Moment,
        bolt: Bolt,
    ) -> Result<(), Fault> {
        let draws = OwnDraws {
            own: self.draws.draw(),
            server: self.draws.draw(),
        };
        let round = self.device.open::<Suite>(alloc, now, draws)?;
        let outcome = if is_made(round) {
            "a context"
        } else {
            "no context"
        };
        println!(rt; "lock: posts its own token: {outcome}")?;
        self.puts(rt, alloc, now, Place::Actual, bolt.word())?;
        self.logs(rt, alloc, now, b"[started]")
    }

    /// These bytes came from there as one datagram: what is to be sent. What is wanted is kept for [`Lock::acts`], so that the answer goes first.
    pub fn hears(
        &mut self,
        rt: &impl Print,
        alloc: Global,
        now: Moment,
        from: Peer,
        datagram: &Bytes,
    ) -> Result<Option<Bytes>, Fault> {
        let draw = self.draws.draw();
        let bytes = datagram.as_slice();
        let step = self
            .device
            .on_datagram::<Suite>(alloc, now, from, bytes, &draw)?;
        let wish = heard(rt, alloc, &step);
        let answer = sent(alloc, &step);
        drop(step);
        if let Some(wish) = wish? {
            self.wish = Some(wish);
        }
        Ok(answer?)
    }

    /// Tries what is wanted, if anything is, and writes where the bolt is then.
    pub fn acts(&mut self, rt: &impl Print, alloc: Global, now: Moment) -> Result<(), Fault> {
        match self.wish.take() {
            Some(wish) => self.tries(rt, alloc, now, &wish),
            None => Ok(()),
        }
    }

    fn tries(
        &mut self,
        rt: &impl Print,
        alloc: Global,
        now: Moment,
        wish: &Wish,
    ) -> Result<(), Fault> {
        let bolt = self.motor.moves(wish.wanted);
        println!(rt; "lock: the bolt is {}", Shown(bolt.word()))?;
        let line = wish.line(alloc, bolt)?;
        self.puts(rt, alloc, now, Place::Actual, bolt.word())?;
        self.logs(rt, alloc, now, line.as_slice())
    }

    /// Time has passed: at least each second, also while datagrams come.
    pub fn ticks(&mut self, alloc: Global, now: Moment) {
        let draw = self.draws.draw();
        let round = self.device.on_tick::<Suite>(alloc, now, &draw);
        drop(round);
    }

    /// The power was gone: contexts and repeats are forgotten, and the resources stay.
    pub fn restarts(
        &mut self,
        rt: &impl Print,
        alloc: Global,
        now: Moment,
        bolt: Bolt,
    ) -> Result<(), Fault> {
        self.device.restart();
        self.wish = None;
        println!(rt; "lock: starts again")?;
        self.starts(rt, alloc, now, bolt)
    }

    /// Something is in the way of the bolt, or is no more.
    pub fn sticks(&mut self, motor: Motor) {
        self.motor = motor;
    }

    /// Puts this at one of the lock's own resources.
    fn puts(
        &mut self,
        rt: &impl Print,
        alloc: Global,
        now: Moment,
        place: Place,
        text: &[u8],
    ) -> Result<(), Fault> {
        let (path, payload) = (place.path(alloc)?, Bytes::from_slice(alloc, text)?);
        let resource = Resource {
            format: None,
            payload,
        };
        let draws = OwnDraws {
            own: self.draws.draw(),
            server: self.draws.draw(),
        };
        let round = self.device.put::<Suite>(alloc, now, path, resource, draws)?;
        Ok(tell_own(rt, "PUT", place, text, answered(round))?)
    }

    /// Appends this to the log; where that is full, it starts again.
    fn logs(
        &mut self,
        rt: &impl Print,
        alloc: Global,
        now: Moment,
        text: &[u8],
    ) -> Result<(), Fault> {
        let (path, payload) = (Place::Log.path(alloc)?, Bytes::from_slice(alloc, text)?);
        let resource = Resource {
            format: None,
            payload,
        };
        let draws = OwnDraws {
            own: self.draws.draw(),
            server: self.draws.draw(),
        };
        let round = self
            .device
            .append::<Suite>(alloc, now, path, resource, draws)?;
        let code = answered(round);
        tell_own(rt, "POST", Place::Log, text, code)?;
        if code == Some(Code::REQUEST_ENTITY_TOO_LARGE) {
            return self.puts(rt, alloc, now, Place::Log, text);
        }
        Ok(())
    }
}
