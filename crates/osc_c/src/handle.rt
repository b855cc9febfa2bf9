//! A value behind a pointer, which C holds.
ghost use Rattle.std.specs.Prelude.{◌≡◌};
ghost use Rattle.std.specs.Fn.{CalledAtMut};
ghost use Rattle.osc_c.specs.Inner.Lending.{Lends, Puts};
ghost use Rattle.std.specs.Box.Ownership.{box_owns};
ghost use Rattle.std.specs.Coded.{coded_option};
ghost use Rattle.std.specs.Option.{option_map};
ghost use Rattle.std.specs.declared.option.Option.{Option};
ghost use Rattle.std.specs.declared.option.Option.TheVariants.{None, Some};

use crate::calls::Outcome;
use std::alloc::{Allocator, Global};
use std::marker::Model;
use std::mem::replace;
use std::ptr::null_mut;

/// What a box owns, and its pointer.
struct Loose<T, A: Allocator> {
    at: *mut T,
    alloc: A,
    ghost value: { T },
}

impl<T, A: Allocator> Model for Loose<T, A> {
    ghost also_owns = { λ l. box_owns (A.dealloc_token l.alloc) T.row l.at l.value };
}

impl<T: Drop, A: Allocator> Loose<T, A> {
    /// Takes a box apart.
    fn of(value: Box<T, A>) -> Loose<T, A>
        ensures { result.value ≡ value.value }
    {
        let (at, alloc) = Box::into_raw_with_allocator(value);
        Loose { at, alloc }
    }

    /// Makes the box again.
    fn into_box(self) -> Box<T, A>
        ensures { result.value ≡ self.value }
    {
        let Loose { at, alloc } = self;
        unsafe { Box::from_raw(alloc, at) }
    }
}

/// A value behind a pointer, or nothing where the pointer is null. The pointer is erased (`*mut ()`): C is handed no type that holds
/// what may be shared.
pub(crate) struct Handle<T> {
    pub(crate) at: *mut T,
    pub(crate) alloc: Global,
    pub(crate) ghost held: { Option T } by { coded_option T.code },
}

impl<T> Model for Handle<T> {
    ghost use Rattle.osc_c.specs.Held.{holds};

    ghost also_owns = { λ h. holds T.row h.alloc h.at h.held };
}

impl<T: Drop> Handle<T> {
    /// The handle of nothing.
    pub(crate) fn nothing(alloc: Global) -> Handle<T>
        ensures { result.held ≡ None }
    {
        Handle {
            at: null_mut(),
            alloc,
        }
    }

    fn of(loose: Loose<T, Global>) -> Handle<T>
        ensures { result.held ≡ Some loose.value }
    {
        let Loose { at, alloc } = loose;
        Handle { at, alloc }
    }

    fn into_loose(self) -> Option<Loose<T, Global>>
        ensures { option_map (λ l. l.value) result ≡ self.held }
    {
        let Handle { at, alloc } = self;
        if at.is_null() {
            None
        } else {
            Some(Loose { at, alloc })
        }
    }

    /// The handle of this.
    pub(crate) fn holding(value: Box<T>) -> Handle<T>
        ensures { result.held ≡ Some value.value }
    {
        Handle::of(Loose::of(value))
    }

    /// What is held.
    pub(crate) fn into_box(self) -> Option<Box<T>>
        ensures { option_map (λ b. b.value) result ≡ self.held }
    {
        match self.into_loose() {
            None => None,
            Some(loose) => Some(loose.into_box()),
        }
    }
}

/// A struct of C that holds a node, or nothing. The compiler takes no generic struct from C, so there is one for each kind of node.
pub(crate) trait NodeStruct: Drop {
    /// What it holds.
    type Node: Drop;

    ghost held: { Self → Option Self.Node };

    /// As a handle.
    fn into_handle(self) -> Handle<Self::Node>
        ensures { result.held ≡ held self };

    /// The struct of a handle.
    fn of_handle(handle: Handle<Self::Node>) -> Self
        ensures { held result ≡ handle.held };
}

/// Takes out what is held, and leaves nothing.
pub(crate) fn taken<H: NodeStruct>(alloc: Global, handle: &mut H) -> Option<Box<H::Node>>
    ensures taken { option_map (λ b. b.value) result ≡ H.held handle.old }
    ensures left { H.held handle.new ≡ None }
{
    replace(handle, H::of_handle(Handle::nothing(alloc)))
        .into_handle()
        .into_box()
}

/// NodeStruct this in the place of what is held.
pub(crate) fn put_back<H: NodeStruct>(handle: &mut H, node: Box<H::Node>)
    ensures { H.held handle.new ≡ Some node.value }
{
    *handle = H::of_handle(Handle::holding(node));
}

/// NodeStruct what was made, in the place of what was held. Where nothing was made, or without memory for its box, what was held is held.
pub(crate) fn hold<H: NodeStruct>(
    alloc: Global,
    handle: &mut H,
    made: Result<H::Node, Outcome>,
) -> Outcome
    ensures { Puts made (H.held handle.old) result (H.held handle.new) }
{
    match made {
        Ok(node) => match Box::new(alloc, node) {
            Ok(node) => {
                *handle = H::of_handle(Handle::holding(node));
                Outcome::Done
            }
            Err(_) => Outcome::NoMemory,
        },
        Err(outcome) => outcome,
    }
}

/// Lends what is held to `call`, and answers what that does. Where nothing is held it is `Nothing`, and nothing is called.
pub(crate) fn with<H: NodeStruct, F: FnMut(&mut H::Node) -> Outcome>(
    alloc: Global,
    handle: &mut H,
    call: &mut F,
) -> Outcome
    requires { F.IsAlwaysCallable call.old }
    ensures lent { Lends (H.held handle.old) result (H.held handle.new) (λ old outcome new. CalledAtMut F.FnMut call.old old outcome call.new new) }
    ensures unlent { H.held handle.old ≡ None → call.new ≡ call.old }
{
    match taken(alloc, handle) {
        None => Outcome::Nothing,
        Some(mut node) => {
            let outcome = call(&mut node);
            *handle = H::of_handle(Handle::holding(node));
            outcome
        }
    }
}
