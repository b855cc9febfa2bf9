//! AES-128 by the S-box, byte by byte, and CCM block by block: what the ciphers are compared with.

ghost use Rattle.std.specs.Prelude.{◌≡◌, ◌+◌, ◌≤◌, length};

/// The substitute of each byte (FIPS 197, section 5.1.1).
const SBOX: [u8; 256] = [
    0x63, 0x7c, 0x77, 0x7b, 0xf2, 0x6b, 0x6f, 0xc5, 0x30, 0x01, 0x67, 0x2b, 0xfe, 0xd7, 0xab, 0x76,
    0xca, 0x82, 0xc9, 0x7d, 0xfa, 0x59, 0x47, 0xf0, 0xad, 0xd4, 0xa2, 0xaf, 0x9c, 0xa4, 0x72, 0xc0,
    0xb7, 0xfd, 0x93, 0x26, 0x36, 0x3f, 0xf7, 0xcc, 0x34, 0xa5, 0xe5, 0xf1, 0x71, 0xd8, 0x31, 0x15,
    0x04, 0xc7, 0x23, 0xc3, 0x18, 0x96, 0x05, 0x9a, 0x07, 0x12, 0x80, 0xe2, 0xeb, 0x27, 0xb2, 0x75,
    0x09, 0x83, 0x2c, 0x1a, 0x1b, 0x6e, 0x5a, 0xa0, 0x52, 0x3b, 0xd6, 0xb3, 0x29, 0xe3, 0x2f, 0x84,
    0x53, 0xd1, 0x00, 0xed, 0x20, 0xfc, 0xb1, 0x5b, 0x6a, 0xcb, 0xbe, 0x39, 0x4a, 0x4c, 0x58, 0xcf,
    0xd0, 0xef, 0xaa, 0xfb, 0x43, 0x4d, 0x33, 0x85, 0x45, 0xf9, 0x02, 0x7f, 0x50, 0x3c, 0x9f, 0xa8,
    0x51, 0xa3, 0x40, 0x8f, 0x92, 0x9d, 0x38, 0xf5, 0xbc, 0xb6, 0xda, 0x21, 0x10, 0xff, 0xf3, 0xd2,
    0xcd, 0x0c, 0x13, 0xec, 0x5f, 0x97, 0x44, 0x17, 0xc4, 0xa7, 0x7e, 0x3d, 0x64, 0x5d, 0x19, 0x73,
    0x60, 0x81, 0x4f, 0xdc, 0x22, 0x2a, 0x90, 0x88, 0x46, 0xee, 0xb8, 0x14, 0xde, 0x5e, 0x0b, 0xdb,
    0xe0, 0x32, 0x3a, 0x0a, 0x49, 0x06, 0x24, 0x5c, 0xc2, 0xd3, 0xac, 0x62, 0x91, 0x95, 0xe4, 0x79,
    0xe7, 0xc8, 0x37, 0x6d, 0x8d, 0xd5, 0x4e, 0xa9, 0x6c, 0x56, 0xf4, 0xea, 0x65, 0x7a, 0xae, 0x08,
    0xba, 0x78, 0x25, 0x2e, 0x1c, 0xa6, 0xb4, 0xc6, 0xe8, 0xdd, 0x74, 0x1f, 0x4b, 0xbd, 0x8b, 0x8a,
    0x70, 0x3e, 0xb5, 0x66, 0x48, 0x03, 0xf6, 0x0e, 0x61, 0x35, 0x57, 0xb9, 0x86, 0xc1, 0x1d, 0x9e,
    0xe1, 0xf8, 0x98, 0x11, 0x69, 0xd9, 0x8e, 0x94, 0x9b, 0x1e, 0x87, 0xe9, 0xce, 0x55, 0x28, 0xdf,
    0x8c, 0xa1, 0x89, 0x0d, 0xbf, 0xe6, 0x42, 0x68, 0x41, 0x99, 0x2d, 0x0f, 0xb0, 0x54, 0xbb, 0x16,
];

/// x times `b` (section 4.2).
fn times_x(b: u8) -> u8 {
    if b < 0x80 { b << 1 } else { (b << 1) ^ 0x1b }
}

/// The words of the key schedule, four bytes each (section 5.2).
fn key_expansion(key: &[u8; 16]) -> [u8; 176] {
    let mut words = [0; 176];
    words[..16].copy_from_slice(key);
    let mut constant = 1;
    for i in 4..44usize {
        let at = 4 * i;
        let mut next = [words[at - 4], words[at - 3], words[at - 2], words[at - 1]];
        if i % 4 == 0 {
            next = [
                SBOX[next[1] as usize] ^ constant,
                SBOX[next[2] as usize],
                SBOX[next[3] as usize],
                SBOX[next[0] as usize],
            ];
            constant = times_x(constant);
        }
        for k in 0..4usize {
            words[at + k] = words[at + k - 16] ^ next[k];
        }
    }
    words
}

/// SubBytes, then ShiftRows (sections 5.1.1 and 5.1.2).
fn substituted_and_shifted(state: [u8; 16]) -> [u8; 16] {
    let mut next = [0; 16];
    for i in 0..16usize {
        next[i] = SBOX[state[5 * i % 16] as usize];
    }
    next
}

/// MixColumns (section 5.1.3).
fn mixed(state: [u8; 16]) -> [u8; 16] {
    let mut next = [0; 16];
    for i in 0..16usize {
        let column = i / 4 * 4;
        let (a, b) = (state[i], state[column + (i + 1) % 4]);
        let (c, d) = (state[column + (i + 2) % 4], state[column + (i + 3) % 4]);
        next[i] = times_x(a) ^ times_x(b) ^ b ^ c ^ d;
    }
    next
}

/// AES-128 under a key.
#[derive(Clone, Copy)]
pub struct Plain {
    words: [u8; 176],
}

impl Plain {
    pub fn new(key: &[u8; 16]) -> Plain {
        Plain {
            words: key_expansion(key),
        }
    }

    fn with_round_key(&self, state: [u8; 16], round: usize) -> [u8; 16]
        requires { round ≤ 10 }
    {
        let mut next = state;
        for i in 0..16usize {
            next[i] ^= self.words[16 * round + i];
        }
        next
    }

    /// The cipher of one block (section 5.1).
    pub fn encrypt(&self, block: [u8; 16]) -> [u8; 16] {
        let mut state = self.with_round_key(block, 0);
        for round in 1..10 {
            state = self.with_round_key(mixed(substituted_and_shifted(state)), round);
        }
        self.with_round_key(substituted_and_shifted(state), 10)
    }

    /// A byte of flags, the nonce and a number in 2 bytes, encrypted (RFC 3610, sections 2.2 and 2.3).
    fn encrypt_flagged(&self, flags: u8, nonce: &[u8; 13], number: usize) -> [u8; 16] {
        let mut block = [0; 16];
        block[0] = flags;
        block[1..14].copy_from_slice(nonce);
        block[14] = (number / 256 % 256) as u8;
        block[15] = (number % 256) as u8;
        self.encrypt(block)
    }

    /// The state of the CBC-MAC after some bytes, of which the first is at `start` of its block.
    fn absorb(&self, state: [u8; 16], bytes: &[u8], start: usize) -> [u8; 16]
        requires { start ≤ 2 }
    {
        let mut state = state;
        let mut place = start;
        for byte in bytes {
            let at = place % 16;
            state[at] ^= *byte;
            place = (at + 1) % 16;
            if place == 0 {
                state = self.encrypt(state);
            }
        }
        if place == 0 {
            state
        } else {
            self.encrypt(state)
        }
    }

    /// The CBC-MAC of a text and its associated data (section 2.2).
    fn mac(&self, size: usize, nonce: &[u8; 13], aad: &[u8], text: &[u8]) -> [u8; 16]
        requires low { 2 ≤ size }
        requires high { size ≤ 16 }
    {
        let lengths = (8 * ((size - 2) / 2) + 1) as u8;
        let flags = if aad.is_empty() {
            lengths
        } else {
            64 + lengths
        };
        let mut state = self.encrypt_flagged(flags, nonce, text.len());
        if !aad.is_empty() {
            state[0] ^= (aad.len() / 256 % 256) as u8;
            state[1] ^= (aad.len() % 256) as u8;
            state = self.absorb(state, aad, 2);
        }
        self.absorb(state, text, 0)
    }

    /// Writes the sealing of a text to the beginning of `out`, with a tag of `size` bytes (sections 2.3 and 2.4).
    pub fn seal(&self, size: usize, nonce: &[u8; 13], aad: &[u8], text: &[u8], out: &mut [u8])
        requires low { 2 ≤ size }
        requires high { size ≤ 16 }
        requires room { length text.now + size ≤ length out.old }
    {
        let mut key = [0; 16];
        for i in 0..text.len() {
            if i % 16 == 0 {
                key = self.encrypt_flagged(1, nonce, i / 16 + 1);
            }
            out[i] = text[i] ^ key[i % 16];
        }
        let mac = self.mac(size, nonce, aad, text);
        let mask = self.encrypt_flagged(1, nonce, 0);
        for i in 0..size {
            out[text.len() + i] = mac[i] ^ mask[i];
        }
    }
}
