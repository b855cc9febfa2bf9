//! What a holder wants, as the lock reads it from what a step served.
ghost use Rattle.std.specs.Prelude.{◌≡◌, ◌↔◌, ◌++◌, IfNone, IfOk, IfSome, IsTrue, Some, codes, option_map};
ghost use Rattle.osc_model.specs.declared.code.Method.TheVariants.{Put};
ghost use Rattle.osc_device.specs.{ServedRequest, served_in};
ghost use Rattle.osc_example.specs.Inner.Bolt.{bolt_word, wanted_word};
ghost use Rattle.osc_example.specs.Inner.Place.{text_of};
ghost use Rattle.osc_example.specs.Inner.Wish.{IsDone, IsWish, name_in};
ghost use Rattle.osc_example.specs.declared.bolt.Wanted.{Wanted as AnyWanted};
ghost use Rattle.osc_example.specs.declared.place.Place.TheVariants as place;

use crate::bolt::{Bolt, Wanted};
use crate::fault::Fault;
use crate::place::Place;
use crate::telling::{tell_other, tell_served};
use osc_device::Served;
use osc_model::{Bytes, Code, Method, Path, Step};
use std::alloc::{AllocError, Global};

/// What a holder wants, until the lock has tried it.
#[derive(Drop)]
pub struct Wish {
    /// Who: the kid context of the request.
    pub by: Bytes,
    /// What.
    pub wanted: Wanted,
}

/// Whether the request did what it asked for: it may have been served and answered that it couldn't.
fn is_done(code: Code) -> bool
    ensures { IsTrue result ↔ IsDone code }
{
    code == Code::CREATED || code == Code::CHANGED
}

/// Whether this is PUT.
fn is_put(method: Option<Method>) -> bool
    ensures { IsTrue result ↔ (method ≡ Some Put) }
{
    method == Some(Method::Put)
}

/// Whether this is `/lock/wanted`.
fn is_wanted(path: &Path) -> bool
    ensures { IsTrue result ↔ (path.now ≡ text_of place.Wanted) }
{
    path.text() == Place::Wanted.text()
}

/// Whether there is a path, and it is `/lock/wanted`.
fn leads_to_wanted(path: Option<&Path>) -> bool
    ensures { IsTrue result ↔ (option_map (λ path. path.now) path.entry ≡ Some (text_of place.Wanted)) }
{
    match path {
        Some(path) => is_wanted(path),
        None => false,
    }
}

/// What was wanted, if it was a PUT of a word that the lock knows to `/lock/wanted`, and was done.
fn wanted_by(served: &Served<'_>) -> Option<Wanted>
    ensures { (wanted : AnyWanted) → (result ≡ Some wanted) ↔ IsWish served.now wanted }
{
    let put = is_put(served.method());
    let leads = leads_to_wanted(served.path());
    let done = is_done(served.reply.code);
    wanted_where(put, leads, done, served.payload())
}

/// What these bytes mean, where all of this is so.
fn wanted_where(put: bool, leads: bool, done: bool, bytes: &[u8]) -> Option<Wanted>
    ensures { (wanted : AnyWanted) → (result ≡ Some wanted)
        ↔ (IsTrue put × IsTrue leads × IsTrue done × (bytes.now ≡ wanted_word wanted)) }
{
    if put && leads && done {
        Wanted::from_bytes(bytes)
    } else {
        None
    }
}

/// Who asked: the kid context of the request, or nobody's name where it has none.
fn name_of<'a>(served: &Served<'a>) -> &'a [u8]
    ensures { result.now ≡ name_in served.now.by.kid_context }
{
    match served.by.kid_context {
        Some(name) => name,
        None => b"",
    }
}

/// The wish that was served, if it is one.
fn wish_of(alloc: Global, served: &Served<'_>) -> Result<Option<Wish>, AllocError>
    ensures some { IfOk result (λ found. IfSome found (λ wish. IsWish served.now wish.wanted × (wish.by ≡ name_in served.now.by.kid_context))) }
    ensures none { IfOk result (λ found. IfNone found ((wanted : AnyWanted) → ¬ IsWish served.now wanted)) }
{
    match wanted_by(served) {
        Some(wanted) => Ok(Some(Wish {
            by: Bytes::from_slice(alloc, name_of(served))?,
            wanted,
        })),
        None => Ok(None),
    }
}

/// Tells what was served, and lets it go but for what it wants.
fn accepted(rt: &impl Print, alloc: Global, served: Served<'_>) -> Result<Option<Wish>, Fault>
    ensures some { IfOk result (λ found. IfSome found (λ wish. IsWish served.entry wish.wanted × (wish.by ≡ name_in served.entry.by.kid_context))) }
    ensures none { IfOk result (λ found. IfNone found ((wanted : AnyWanted) → ¬ IsWish served.entry wanted)) }
{
    let told = tell_served(rt, &served);
    let wish = wish_of(alloc, &served);
    drop(served);
    told?;
    Ok(wish?)
}

/// Tells what a step of the device did, and what it is to try: what was served, if that is a wish, and nothing else.
pub fn heard(rt: &impl Print, alloc: Global, step: &Step) -> Result<Option<Wish>, Fault>
    ensures some { IfOk result (λ found. IfSome found (λ wish. (served : ServedRequest) × (served_in step.now.notes ≡ Some served)
        × IsWish served wish.wanted × (wish.by ≡ name_in served.by.kid_context))) }
    ensures none { IfOk result (λ found. IfNone found ((served : ServedRequest) (wanted : AnyWanted)
        → served_in step.now.notes ≡ Some served → ¬ IsWish served wanted)) }
{
    match Served::in_step(step) {
        Some(served) => accepted(rt, alloc, served),
        None => {
            tell_other(rt, step)?;
            Ok(None)
        }
    }
}

impl Wish {
    /// What the log has of it: who wanted something, and where the bolt was then.
    pub fn line(&self, alloc: Global, bolt: Bolt) -> Result<Bytes, AllocError>
        ensures { IfOk result (λ line. line ≡ codes "[" ++ self.now.by ++ codes " " ++ bolt_word bolt ++ codes "]") }
    {
        let mut text = Vec::from_slice(alloc, b"[")?;
        text.extend_from_slice(self.by.as_slice())?;
        text.push(b' ')?;
        text.extend_from_slice(bolt.word())?;
        text.push(b']')?;
        Ok(Bytes::from_vec(text))
    }
}
