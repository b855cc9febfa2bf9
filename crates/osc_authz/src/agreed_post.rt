//! Posts that a desk knows again.

ghost use Rattle.std.specs.Prelude.{◌≡◌, ◌≤◌, ◌∷◌, ◌++◌, [], find, length, option_map, take, IfOk};
ghost use Rattle.osc_authz.specs.Known.{offers};
ghost use Rattle.osc_authz.specs.Inner.Rooms.{IsRoom};

use crate::payload::PostFields;
use crate::post::PostAnswer;
use osc_model::Bytes;
use std::alloc::{AllocError, Global};
use std::marker::Model;

/// A post that a desk agreed to.
#[derive(Drop)]
pub struct AgreedPost {
    /// The nonce of the client.
    pub nonce1: Bytes,
    /// The recipient ID of the client.
    pub client_id: Bytes,
    /// What it was answered.
    pub answer: PostAnswer,
}

impl AgreedPost {
    /// The post with these fields, and its answer.
    fn new(
        alloc: Global,
        fields: &PostFields<'_>,
        answer: PostAnswer,
    ) -> Result<AgreedPost, AllocError>
        ensures { IfOk result (λ post. post ≡ record { nonce1 = fields.now.nonce1.now; client_id = fields.now.client_id.now; answer = answer }) }
    {
        Ok(AgreedPost {
            nonce1: Bytes::from_slice(alloc, fields.nonce1)?,
            client_id: Bytes::from_slice(alloc, fields.client_id)?,
            answer,
        })
    }

    /// Whether it had this nonce and this recipient ID.
    fn offers(&self, nonce1: &[u8], client_id: &[u8]) -> bool
        ensures { result ≡ offers nonce1.now client_id.now self.now }
    {
        nonce1 == self.nonce1.as_slice() && client_id == self.client_id.as_slice()
    }
}

/// The posts of a token id that are known, the newest first.
#[derive(Drop)]
pub struct AgreedPosts {
    posts: Vec<AgreedPost>,
}

impl Model for AgreedPosts {
    ghost use Rattle.std.specs.Prelude.{List};
    ghost use Rattle.std.specs.Coded.{codes};
    ghost use Rattle.osc_authz.specs.declared.agreed_post.AgreedPost.{AgreedPost};

    ghost Value = { List AgreedPost };

    ghost coded = { Prim.hlevel codes };

    ghost view = { λ posts. posts.posts.items };
}

impl AgreedPosts {
    /// None; takes no memory.
    pub fn none(alloc: Global) -> AgreedPosts
        ensures { result ≡ [] }
    {
        AgreedPosts {
            posts: Vec::new(alloc),
        }
    }

    /// What the post with this nonce and this recipient ID was answered, if it is known.
    pub fn answer(&self, nonce1: &[u8], client_id: &[u8]) -> Option<PostAnswer>
        ensures { result ≡ option_map (λ post. post.answer) (find (offers nonce1.now client_id.now) self.now) }
    {
        let post = self
            .posts
            .iter()
            .find(|post| post.offers(nonce1, client_id))?;
        Some(post.answer)
    }
}

/// A post that is to be known, if any is, in room for the older ones that stay known beside it.
#[derive(Drop)]
pub(crate) struct PostRoom {
    posts: Vec<AgreedPost>,
    most: u8,
}

impl PostRoom {
    /// The post with these fields and this answer, in room for `most` posts; takes no memory where that is 0.
    pub fn new(
        alloc: Global,
        most: u8,
        fields: &PostFields<'_>,
        answer: PostAnswer,
    ) -> Result<PostRoom, AllocError>
        ensures most { IfOk result (λ room. room.most ≡ most) }
        ensures post { IfOk result (λ room. room.posts.items ≡ take most (record { nonce1 = fields.now.nonce1.now; client_id = fields.now.client_id.now; answer = answer } ∷ [])) }
        ensures room { IfOk result IsRoom }
    {
        let mut posts = Vec::with_capacity(alloc, usize::from(most))?;
        if most > 0 {
            posts.push_reserved(AgreedPost::new(alloc, fields, answer)?);
        }
        Ok(PostRoom { posts, most })
    }

    /// The post before the older ones, as many as there is room for.
    pub fn before(self, older: AgreedPosts) -> AgreedPosts
        requires { IsRoom self }
        ensures { result ≡ take self.most (self.posts.items ++ older) }
    {
        let PostRoom { mut posts, most } = self;
        let AgreedPosts { posts: older } = older;
        'older: for post in older {
            if posts.len() < usize::from(most) {
                posts.push_reserved(post);
            }
        }
        AgreedPosts { posts }
    }
}
