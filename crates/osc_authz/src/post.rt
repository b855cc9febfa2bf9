//! The outcome of a post to authz-info.

ghost use Rattle.std.specs.Prelude.{◌≡◌, [], ◌∷◌, None, Err};
ghost use Rattle.osc_authz.specs.Exchange.{answer_item};
ghost use Rattle.osc_authz.specs.Post.{answer_of};
ghost use Rattle.osc_cbor.specs.{spelling};

use crate::error::PostError;
use osc_model::{Note, SharedBytes};

/// What a post to authz-info came to.
#[derive(Debug, Drop)]
pub struct Post {
    /// The note of the token's opening, if it opened; also where the post was refused for what the token says.
    pub opened: Option<Note>,
    /// What is answered: 2.01 with a payload, or the code of the refusal.
    pub answer: Result<PostReply, PostError>,
    /// The id of the token, where the post made a context.
    pub holder: Option<SharedBytes>,
}

impl Post {
    /// A post that was refused before its token opened.
    pub(crate) fn refused(error: PostError) -> Post
        ensures { result ≡ record { opened = None; answer = Err error; holder = None } }
    {
        Post {
            opened: None,
            answer: Err(error),
            holder: None,
        }
    }
}

/// What a post that isn't refused is answered, by 2.01.
#[derive(Clone, Copy, Debug, PartialEq, Eq)]
pub enum PostReply {
    /// It made a context.
    New(PostAnswer),
    /// It is known, and the context that it made is held: it is answered as before.
    Known(PostAnswer),
}

impl PostReply {
    /// The nonce and the recipient ID of the server that are answered.
    pub fn answer(self) -> PostAnswer
        ensures { result ≡ answer_of self }
    {
        match self {
            PostReply::New(answer) | PostReply::Known(answer) => answer,
        }
    }
}

/// What the server answers to a post that makes a context (RFC 9203 section 4.2).
#[derive(Clone, Copy, Debug, PartialEq, Eq)]
pub struct PostAnswer {
    /// The nonce that the server drew.
    pub nonce2: [u8; 8],
    /// The server's recipient ID.
    pub recipient_id: u8,
}

impl PostAnswer {
    /// The payload, whose Content-Format is 19, application/ace+cbor; takes no memory.
    pub fn payload(&self) -> [u8; 16]
        ensures { result ≡ spelling (answer_item self.now.nonce2 (self.now.recipient_id ∷ [])) }
    {
        let [a, b, c, d, e, f, g, h] = self.nonce2;
        [
            0xa2,
            0x18,
            42,
            0x48,
            a,
            b,
            c,
            d,
            e,
            f,
            g,
            h,
            0x18,
            44,
            0x41,
            self.recipient_id,
        ]
    }
}
