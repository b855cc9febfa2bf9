//! The error of a plaintext that no row gives.
use osc_options::PlaintextError;

#[test]
fn printed(rt: HostRuntime) {
    let error = PlaintextError::Memory;
    let printed = format!(in rt.alloc(); "{} {error}", error.number()).expect(&rt, "memory");
    assert!(rt; printed.as_str() == "9 out of memory");
}
