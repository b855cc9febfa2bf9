//! The labels of claims (RFC 8392 section 4, RFC 8747 section 3.1, RFC 9200 section 5.8.1), and of input material and its
//! fields (RFC 9203 section 3.2.1).

pub(crate) const AUDIENCE: u64 = 3;

pub(crate) const EXPIRES: u64 = 4;

pub(crate) const NOT_BEFORE: u64 = 5;

pub(crate) const CONFIRMATION: u64 = 8;

pub(crate) const SCOPE: u64 = 9;

/// Of input material in the claim cnf.
pub(crate) const MATERIAL: u64 = 4;

pub(crate) const ID: u64 = 0;

pub(crate) const VERSION: u64 = 1;

pub(crate) const SECRET: u64 = 2;

pub(crate) const HKDF: u64 = 3;

pub(crate) const ALGORITHM: u64 = 4;

pub(crate) const SALT: u64 = 5;

pub(crate) const ID_CONTEXT: u64 = 6;
