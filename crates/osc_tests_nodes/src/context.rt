//! Contexts: their laws.
use osc_context::laws;

#[test]
fn laws_are_there(_rt: HostRuntime) {
    laws::one_partial_iv();
    laws::distinct_nonces();
    laws::derived_lengths();
    laws::one_derivation();
    laws::nonces_of_a_key();
    laws::one_master_salt();
    laws::nonces_of_a_salt();
}
