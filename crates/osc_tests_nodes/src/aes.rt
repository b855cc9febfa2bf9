//! The laws of the cipher.
use osc_aes::laws;

#[test]
fn laws_are_there(_rt: HostRuntime) {
    laws::a_block_is_sixteen_bytes();
    laws::one_inverse();
    laws::each_word_of_the_schedule();
}
