//! The table of options (RFC 7252 section 5.10, RFC 8613 section 4.1).
ghost use Rattle.std.specs.Prelude.{◌≡◌};
ghost use Rattle.osc_options.specs.Table as spec;

use crate::numbers;

/// How OSCORE protects an option (RFC 8613 section 4.1).
#[derive(Clone, Copy, Debug, PartialEq, Eq)]
pub enum Class {
    /// Encrypted and integrity protected.
    E,
    /// Unprotected, and visible to proxies.
    U,
}

/// What is recognised as an option of this number.
#[derive(Clone, Copy, Debug, PartialEq, Eq)]
pub struct Rule {
    pub number: u16,
    /// The least length of its value, in bytes.
    pub shortest: u16,
    /// The greatest length of its value, in bytes.
    pub longest: u16,
    /// Whether it may be more than once.
    pub repeats: bool,
    pub class: Class,
}

/// Whether a message with such an option is refused where the option isn't recognised (RFC 7252 section 5.4.1).
pub fn is_critical(number: u16) -> bool
    ensures { result ≡ spec.is_critical number }
{
    number % 2 == 1
}

/// Whether a proxy may forward such an option only where it recognises it (RFC 7252 section 5.4.2).
pub fn is_unsafe(number: u16) -> bool
    ensures { result ≡ spec.is_unsafe number }
{
    number / 2 % 2 == 1
}

/// The row of the table for this number.
#[inline(always)]
pub fn rule_of(number: u16) -> Option<Rule>
    ensures { result ≡ spec.rule_of number }
{
    let (shortest, longest, repeats, class) = match number {
        numbers::IF_MATCH => (0, 8, true, Class::E),
        numbers::URI_HOST => (1, 255, false, Class::U),
        numbers::ETAG => (1, 8, true, Class::E),
        numbers::IF_NONE_MATCH => (0, 0, false, Class::E),
        numbers::URI_PORT => (0, 2, false, Class::U),
        numbers::LOCATION_PATH => (0, 255, true, Class::E),
        numbers::OSCORE => (0, 255, false, Class::U),
        numbers::URI_PATH => (0, 255, true, Class::E),
        numbers::CONTENT_FORMAT => (0, 2, false, Class::E),
        numbers::MAX_AGE => (0, 4, false, Class::E),
        numbers::URI_QUERY => (0, 255, true, Class::E),
        numbers::ACCEPT => (0, 2, false, Class::E),
        numbers::LOCATION_QUERY => (0, 255, true, Class::E),
        numbers::PROXY_URI => (1, 1034, false, Class::U),
        numbers::PROXY_SCHEME => (1, 255, false, Class::U),
        numbers::SIZE1 => (0, 4, false, Class::E),
        _ => return None,
    };
    Some(Rule {
        number,
        shortest,
        longest,
        repeats,
        class,
    })
}

/// How OSCORE protects an option of this number; what isn't in the table is encrypted (RFC 8613 section 4.1).
#[inline(always)]
pub fn class_of(number: u16) -> Class
    ensures { result ≡ spec.class_of number }
{
    match rule_of(number) {
        Some(rule) => rule.class,
        None => Class::E,
    }
}
