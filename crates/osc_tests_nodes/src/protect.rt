//! The laws of protection, at the ciphers of the two algorithms.
use osc_ccm::Suite;
use osc_protect::laws;

#[test]
fn laws_at_a_cipher(_rt: HostRuntime) {
    laws::aad_tells_the_number();
    laws::unprotecting_a_protected_request::<Suite>();
    laws::unprotecting_a_protected_response::<Suite>();
}
