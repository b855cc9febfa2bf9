//! The laws of key derivation.
use osc_hkdf::laws;

#[test]
fn laws_are_there(_rt: HostRuntime) {
    laws::lengths();
    laws::a_shorter_output_begins_a_longer();
}
