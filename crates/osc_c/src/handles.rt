//! The structs that C holds: a device, a client and a proxy.
ghost use Rattle.std.specs.Prelude.{◌≡◌};
ghost use Rattle.std.specs.Coded.{coded_option};
ghost use Rattle.std.specs.declared.option.Option.{Option};
ghost use Rattle.osc_c.specs.Nodes.{ClientType, DeviceType, ProxyType};

use crate::calls::{ClientNode, KeptNode, ProxyNode};
use crate::handle::{Handle, NodeStruct};
use std::alloc::Global;
use std::marker::Model;

/// A device, or nothing where the pointer is null. C sees a struct of one pointer.
#[repr(C)]
pub struct DeviceHandle {
    at: *mut (),
    alloc: Global,
    ghost held: { Option DeviceType.Denot } by { coded_option DeviceType.coded },
}

impl Model for DeviceHandle {
    ghost use Rattle.osc_c.specs.Held.{holds};
    ghost use Rattle.osc_c.specs.Nodes.{DeviceType};

    ghost also_owns = { λ h. holds DeviceType h.alloc h.at h.held };
}

impl Drop for DeviceHandle {
    fn drop(self) {
        drop(self.into_handle().into_box());
    }
}

impl NodeStruct for DeviceHandle {
    type Node = KeptNode;

    ghost held = { λ h. h.held };

    fn into_handle(self) -> Handle<KeptNode>
        ensures { result.held ≡ self.held }
    {
        let DeviceHandle { at, alloc } = self;
        Handle {
            at: at as *mut KeptNode,
            alloc,
        }
    }

    fn of_handle(handle: Handle<KeptNode>) -> DeviceHandle
        ensures { result.held ≡ handle.held }
    {
        let Handle { at, alloc } = handle;
        DeviceHandle {
            at: at as *mut (),
            alloc,
        }
    }
}

/// A client, or nothing where the pointer is null. C sees a struct of one pointer.
#[repr(C)]
pub struct ClientHandle {
    at: *mut (),
    alloc: Global,
    ghost held: { Option ClientType.Denot } by { coded_option ClientType.coded },
}

impl Model for ClientHandle {
    ghost use Rattle.osc_c.specs.Held.{holds};
    ghost use Rattle.osc_c.specs.Nodes.{ClientType};

    ghost also_owns = { λ h. holds ClientType h.alloc h.at h.held };
}

impl Drop for ClientHandle {
    fn drop(self) {
        drop(self.into_handle().into_box());
    }
}

impl NodeStruct for ClientHandle {
    type Node = ClientNode;

    ghost held = { λ h. h.held };

    fn into_handle(self) -> Handle<ClientNode>
        ensures { result.held ≡ self.held }
    {
        let ClientHandle { at, alloc } = self;
        Handle {
            at: at as *mut ClientNode,
            alloc,
        }
    }

    fn of_handle(handle: Handle<ClientNode>) -> ClientHandle
        ensures { result.held ≡ handle.held }
    {
        let Handle { at, alloc } = handle;
        ClientHandle {
            at: at as *mut (),
            alloc,
        }
    }
}

/// A proxy, or nothing where the pointer is null. C sees a struct of one pointer.
#[repr(C)]
pub struct ProxyHandle {
    at: *mut (),
    alloc: Global,
    ghost held: { Option ProxyType.Denot } by { coded_option ProxyType.coded },
}

impl Model for ProxyHandle {
    ghost use Rattle.osc_c.specs.Held.{holds};
    ghost use Rattle.osc_c.specs.Nodes.{ProxyType};

    ghost also_owns = { λ h. holds ProxyType h.alloc h.at h.held };
}

impl Drop for ProxyHandle {
    fn drop(self) {
        drop(self.into_handle().into_box());
    }
}

impl NodeStruct for ProxyHandle {
    type Node = ProxyNode;

    ghost held = { λ h. h.held };

    fn into_handle(self) -> Handle<ProxyNode>
        ensures { result.held ≡ self.held }
    {
        let ProxyHandle { at, alloc } = self;
        Handle {
            at: at as *mut ProxyNode,
            alloc,
        }
    }

    fn of_handle(handle: Handle<ProxyNode>) -> ProxyHandle
        ensures { result.held ≡ handle.held }
    {
        let Handle { at, alloc } = handle;
        ProxyHandle {
            at: at as *mut (),
            alloc,
        }
    }
}
