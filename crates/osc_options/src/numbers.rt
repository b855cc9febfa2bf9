//! The numbers of the options (RFC 7252 section 12.2; OSCORE: RFC 8613 section 11.1).

pub const IF_MATCH: u16 = 1;

pub const URI_HOST: u16 = 3;

pub const ETAG: u16 = 4;

pub const IF_NONE_MATCH: u16 = 5;

pub const URI_PORT: u16 = 7;

pub const LOCATION_PATH: u16 = 8;

pub const OSCORE: u16 = 9;

pub const URI_PATH: u16 = 11;

pub const CONTENT_FORMAT: u16 = 12;

pub const MAX_AGE: u16 = 14;

pub const URI_QUERY: u16 = 15;

pub const ACCEPT: u16 = 17;

pub const LOCATION_QUERY: u16 = 20;

pub const PROXY_URI: u16 = 35;

pub const PROXY_SCHEME: u16 = 39;

pub const SIZE1: u16 = 60;
