//! Codes and methods (RFC 7252 sections 3 and 12.1).
ghost use Rattle.std.specs.Prelude.{◌≡◌, Some};
ghost use Rattle.osc_model.specs.Code.{code, code_text, method_of, method_number};

use std::fmt;

/// The code of a message: the class times 32 plus the detail, so that 4.04 is `Code(132)` (RFC 7252 section 3).
/// The constants are responses (section 5.9).
#[derive(Clone, Copy, Debug, PartialEq, Eq)]
pub struct Code(pub u8);

/// As the standard writes it: class, a dot and two digits of detail, as `2.05` (RFC 7252 section 3).
impl fmt::Display for Code {
    ghost output = { λ code. Some (code_text code.0) };

    fn fmt<W: fmt::Write>(&self, f: &mut fmt::Formatter<W>) -> fmt::Result {
        let detail = self.0 % 32;
        write!(f, "{}.{}{}", self.0 / 32, detail / 10, detail % 10)
    }
}

impl Code {
    /// 2.01
    pub const CREATED: Code = Code(65);

    /// 2.02
    pub const DELETED: Code = Code(66);

    /// 2.04
    pub const CHANGED: Code = Code(68);

    /// 2.05
    pub const CONTENT: Code = Code(69);

    /// 4.00
    pub const BAD_REQUEST: Code = Code(128);

    /// 4.01
    pub const UNAUTHORIZED: Code = Code(129);

    /// 4.02
    pub const BAD_OPTION: Code = Code(130);

    /// 4.03
    pub const FORBIDDEN: Code = Code(131);

    /// 4.04
    pub const NOT_FOUND: Code = Code(132);

    /// 4.05
    pub const METHOD_NOT_ALLOWED: Code = Code(133);

    /// 4.06
    pub const NOT_ACCEPTABLE: Code = Code(134);

    /// 4.12
    pub const PRECONDITION_FAILED: Code = Code(140);

    /// 4.13
    pub const REQUEST_ENTITY_TOO_LARGE: Code = Code(141);

    /// 5.00, the answer for lack of memory
    pub const INTERNAL_SERVER_ERROR: Code = Code(160);

    /// 5.02
    pub const BAD_GATEWAY: Code = Code(162);

    /// 5.03
    pub const SERVICE_UNAVAILABLE: Code = Code(163);

    /// 5.04
    pub const GATEWAY_TIMEOUT: Code = Code(164);

    /// 5.05
    pub const PROXYING_NOT_SUPPORTED: Code = Code(165);
}

/// What a request asks to be done with a resource (RFC 7252 section 5.8).
#[derive(Clone, Copy, Debug, PartialEq, Eq)]
pub enum Method {
    /// 0.01
    Get,
    /// 0.02
    Post,
    /// 0.03
    Put,
    /// 0.04
    Delete,
}

impl Method {
    /// The method that a request code names; none for the codes of responses and for unknown methods.
    pub fn from_code(code: Code) -> Option<Method>
        ensures { result ≡ method_of code }
    {
        match code.0 {
            1 => Some(Method::Get),
            2 => Some(Method::Post),
            3 => Some(Method::Put),
            4 => Some(Method::Delete),
            _ => None,
        }
    }

    /// The request code of the method.
    pub fn code(self) -> Code
        ensures { result ≡ code 0 (method_number self) }
    {
        match self {
            Method::Get => Code(1),
            Method::Post => Code(2),
            Method::Put => Code(3),
            Method::Delete => Code(4),
        }
    }
}
