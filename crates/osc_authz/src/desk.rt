//! The server's end of exchanges.

ghost use Rattle.std.specs.Prelude.{◌≡◌, ◌≤◌, ◌⊎◌, ℕ, List, [], length, false, true, ◌↔◌, IfOk, IsErr, IsSome, IsTrue, OnErr, Some, None, Ok, option_map};
ghost use Rattle.std.specs.Option.{IfSome};
ghost use Rattle.osc_model.specs.declared.context.Side.TheVariants.{Server};
ghost use Rattle.osc_context.specs.{accepted_of, greatest_number};
ghost use Rattle.osc_window.specs.{IsFresh};
ghost use Rattle.osc_cbor.specs.{DataItem, IsWhole};
ghost use Rattle.osc_model.specs.Scope.{Scope as AnyScope};
ghost use Rattle.osc_model.specs.{revocation_of};
ghost use Rattle.osc_model.specs.Tree.{Tree as Resources};
ghost use Rattle.osc_token.specs.{ComesTo, IsToken, token_note};
ghost use Rattle.osc_token.specs.declared.claims.Claims.{Claims as AnyClaims};
ghost use Rattle.osc_authz.specs.Agreement.{Agrees, Judges};
ghost use Rattle.osc_authz.specs.Inner.KnownAnswer.{IsKnownAnswer};
ghost use Rattle.osc_authz.specs.SecurityContext.{SecurityContext};
ghost use Rattle.osc_authz.specs.Inner.Payload.{post_fields as fields_of};
ghost use Rattle.osc_token.specs.Inner.Reading.{IsItem};
ghost use Rattle.osc_authz.specs.Table.{IsTable, IsFull, KeepsPlace, accepted, alive, confirmed_at, holder_at, last_at, meant, taking, with_id, with_last};
ghost use Rattle.osc_authz.specs.Post.{IsKeyFor, IsKeyOf, Opens, Posts};
ghost use Rattle.osc_authz.specs.Posting.{OpenedToken};
ghost use Rattle.osc_authz.specs.Known.{IsStillHeld};
ghost use Rattle.osc_authz.specs.Marked.{AreMarked, IsSameBut};

use crate::agreed_post::PostRoom;
use crate::agreement::{Bounds, context_of, name_of};
use crate::context::ServerContext;
use crate::error::PostError;
use crate::last_answer::LastAnswer;
use crate::payload::{PostFields, post_fields};
use crate::places::{NOWHERE, Places, places_of};
use crate::post::{Post, PostAnswer, PostReply};
use crate::revoked_marks::RevokedMarks;
use crate::rules::ContextRules;
use crate::standing::{Standing, has_resource, is_there};
use crate::table::{self, Addition};
use crate::token_entry::TokenEntry;
use osc_cbor::ItemRef;
use osc_ccm::Aead;
use osc_context::AcceptedNumber;
use osc_model::{Draw, Note, Path, SharedBytes, SharedName, revoked_path};
use osc_scope::Scope;
use osc_token::{Audience, Claims, TokenError, judge, open_token};
use osc_tree::Tree;
use std::alloc::{AllocError, Global};
use std::marker::Model;

/// What a desk begins with.
pub struct DeskParts {
    /// The key that the desk shares with the issuer of tokens.
    pub key: [u8; 16],
    /// The former key, at a change of key: a token that doesn't open under the key is opened with this one.
    pub old_key: Option<[u8; 16]>,
    /// For whom tokens must be.
    pub audience: Audience,
    /// What it rules for its contexts.
    pub rules: ContextRules,
}

/// The desk at authz-info: it judges tokens, and keeps the contexts that they made. For each token id it has at most one
/// context that a request has opened under, and one of the newest post; at most 64 token ids have one, with the one whose place is
/// reserved. A look-up takes the
/// same time however many there are, and no memory. Of each token id it knows as many of the newest posts as it is told.
pub struct ServerDesk {
    key: [u8; 16],
    old_key: Option<[u8; 16]>,
    audience: Audience,
    rules: ContextRules,
    table: Vec<TokenEntry>,
    // Where each recipient ID is in the table.
    places: Places,
}

impl Drop for ServerDesk {
    fn drop(self) {
        let ServerDesk {
            key: _,
            old_key: _,
            audience: _,
            rules: _,
            table: _,
            places: _,
        } = self;
    }
}

impl Model for ServerDesk {
    ghost use Rattle.osc_authz.specs.Desk.{DeskState};
    ghost use Rattle.osc_authz.specs.Table.{IsTable, KeepsPlace};
    ghost use Rattle.osc_authz.specs.Known.{AreFew};
    ghost use Rattle.std.specs.Coded.{codes};
    ghost use Rattle.osc_model.specs.{coded_scope};

    ghost Value = { DeskState };

    ghost coded = { Prim.hlevel (codes, coded_scope) };

    ghost view = { λ desk. record { key = desk.key; old_key = desk.old_key; audience = desk.audience; rules = desk.rules; table = desk.table.items } };

    ghost use Rattle.osc_authz.specs.Inner.Places.{IsIndex};

    ghost invariant = { λ desk. IsTable desk.table.items × IsIndex desk.places desk.table.items × AreFew desk.rules.remembered desk.table.items
        × KeepsPlace desk.rules.reserved desk.table.items };
}

/// The outcome of a post whose token opened.
#[derive(Drop)]
struct Judged {
    /// What is answered.
    answer: Result<PostReply, PostError>,
    /// The id of the token, where the post is agreed to.
    holder: Option<SharedBytes>,
}

/// What a post offers whose token opened: when and on which resources, its fields, and the random bytes of the step.
#[derive(Drop)]
struct Offered<'a> {
    on: &'a Standing<'a>,
    fields: PostFields<'a>,
    draw: &'a Draw,
}

impl<'a> Model for Offered<'a> {
    ghost use Rattle.osc_authz.specs.Posting.{Offer};
    ghost use Rattle.std.specs.Coded.{codes};
    ghost use Rattle.osc_model.specs.{coded_tree};

    ghost Value = { Offer };

    ghost coded = { Prim.hlevel (codes, coded_tree) };

    ghost view = { λ offer. record { on = offer.on.now; draw = offer.draw.now; nonce1 = offer.fields.nonce1.now; client_id = offer.fields.client_id.now } };
}

impl ServerDesk {
    /// The desk of a server that shares this key with the issuer of tokens for this audience. It has no contexts, no old key and no
    /// rules, and takes no memory.
    pub fn new(alloc: Global, key: [u8; 16], audience: Audience) -> ServerDesk
        ensures { result ≡ record { key = key; old_key = None; audience = audience; rules = record { revoked = None; seconds = None; remembered = 0; reserved = None; subtrees = true; answers = false }; table = [] } }
    {
        ServerDesk::of(
            alloc,
            DeskParts {
                key,
                old_key: None,
                audience,
                rules: ContextRules::none(),
            },
        )
    }

    /// The desk of these parts. It has no contexts, and takes no memory.
    pub fn of(alloc: Global, parts: DeskParts) -> ServerDesk
        ensures { result ≡ record { key = parts.key; old_key = parts.old_key; audience = parts.audience; rules = parts.rules; table = [] } }
    {
        let DeskParts {
            key,
            old_key,
            audience,
            rules,
        } = parts;
        ServerDesk {
            key,
            old_key,
            audience,
            rules,
            table: Vec::new(alloc),
            places: [NOWHERE; 256],
        }
    }

    /// What a POST to authz-info with this payload does. Where the desk refuses nothing, it adds one pending context, whose
    /// name has the nonce of the draw (its first 8 bytes), in the place of the one that is pending for the token's id, after
    /// the token ids that have no live context have left the table. Its recipient ID is the least byte that no other
    /// context has and that isn't the client's own. Else nothing is changed: a post that is known is answered as before while its context is
    /// held, and refused after that.
    ///
    /// Which of its contexts are of revoked tokens the marks say, and they say it afterwards: the tree is looked into for the posted
    /// token's id alone.
    ///
    /// Without memory nothing is changed; that comes only where the payload is one whole item of CBOR.
    pub fn post<A: Aead>(
        &mut self,
        alloc: Global,
        on: &Standing<'_>,
        marks: &mut RevokedMarks,
        body: &[u8],
        draw: &Draw,
    ) -> Result<Post, AllocError>
        requires marked { AreMarked on.now.tree self.old.table marks.old }
        ensures posted { IfOk result (λ post. Posts A.is_sealing self.old (record { on = on.now; body = body.now; draw = draw.now }) post self.new) }
        ensures err { OnErr result (self.new ≡ self.old) }
        ensures memory { IsErr result → (d : DataItem) × IsWhole body.now d }
        ensures table { IsTable self.new.table }
        ensures marked { AreMarked on.now.tree self.new.table marks.new }
    {
        let posted = self.post_bytes::<A>(alloc, on, marks, body, draw);
        marks.unmark_new(&posted);
        self.has_a_table();
        posted
    }

    /// The outcome of a post of this payload. Without memory nothing is changed.
    fn post_bytes<A: Aead>(
        &mut self,
        alloc: Global,
        on: &Standing<'_>,
        marks: &RevokedMarks,
        body: &[u8],
        draw: &Draw,
    ) -> Result<Post, AllocError>
        requires { AreMarked on.now.tree self.old.table marks.now }
        ensures posted { IfOk result (λ post. Posts A.is_sealing self.old (record { on = on.now; body = body.now; draw = draw.now }) post self.new) }
        ensures err { OnErr result (self.new ≡ self.old) }
        ensures memory { IsErr result → (d : DataItem) × IsWhole body.now d }
    {
        match ItemRef::whole(body) {
            Some(item) => self.post_item::<A>(alloc, on, marks, &item, draw),
            None => Ok(Post::refused(PostError::Fields)),
        }
    }

    /// The outcome of a post of this item. Without memory nothing is changed.
    fn post_item<A: Aead>(
        &mut self,
        alloc: Global,
        on: &Standing<'_>,
        marks: &RevokedMarks,
        item: &ItemRef<'_>,
        draw: &Draw,
    ) -> Result<Post, AllocError>
        requires { AreMarked on.now.tree self.old.table marks.now }
        ensures posted { (body : List ℕ) → IsItem body item.now
            → IfOk result (λ post. Posts A.is_sealing self.old (record { on = on.now; body = body; draw = draw.now }) post self.new) }
        ensures err { OnErr result (self.new ≡ self.old) }
        ensures memory { IsErr result → IsSome (fields_of item.now) }
    {
        let Some(fields) = post_fields(item) else {
            return Ok(Post::refused(PostError::Fields));
        };
        match self.open::<A>(alloc, fields.token)? {
            Some(note) => {
                let offer = Offered { on, fields, draw };
                let Judged { answer, holder } = self.answer(
                    alloc,
                    &offer,
                    marks,
                    note.plaintext.as_slice(),
                )?;
                Ok(Post {
                    opened: Some(note),
                    answer,
                    holder,
                })
            }
            None => Ok(Post::refused(PostError::Token(TokenError::NotGenuine))),
        }
    }

    /// The note of a token's opening, under the key, or else under the old one.
    fn open<A: Aead>(&self, alloc: Global, token: &[u8]) -> Result<Option<Note>, AllocError>
        ensures opened { IfOk result (λ found. (note : _) → found ≡ Some note
            → (key : List ℕ) × (its : OpenedToken) × IsToken A.is_sealing key token.now its.protected its.iv its.text
            × IsKeyFor A.is_sealing self.now token.now key × (note ≡ token_note key its.protected its.iv its.text)) }
        ensures none { IfOk result (λ found. found ≡ None → (key : List ℕ) → IsKeyOf self.now key → ¬ Opens A.is_sealing key token.now) }
    {
        match open_token::<A>(alloc, token, &self.key)? {
            Some(note) => Ok(Some(note)),
            None => self.open_by_old::<A>(alloc, token),
        }
    }

    /// The note of a token's opening under the old key, if there is one.
    fn open_by_old<A: Aead>(&self, alloc: Global, token: &[u8]) -> Result<Option<Note>, AllocError>
        ensures opened { IfOk result (λ found. (note : _) → found ≡ Some note
            → (key : List ℕ) × (its : OpenedToken) × IsToken A.is_sealing key token.now its.protected its.iv its.text
            × (self.now.old_key ≡ Some key) × (note ≡ token_note key its.protected its.iv its.text)) }
        ensures none { IfOk result (λ found. found ≡ None → (key : List ℕ) → self.now.old_key ≡ Some key → ¬ Opens A.is_sealing key token.now) }
    {
        match &self.old_key {
            Some(key) => open_token::<A>(alloc, token, key),
            None => Ok(None),
        }
    }

    /// What is answered to a post whose token opened to this text. Without memory nothing is changed; once the text is judged, that
    /// comes only where nothing is refused.
    fn answer(
        &mut self,
        alloc: Global,
        offer: &Offered<'_>,
        marks: &RevokedMarks,
        text: &[u8],
    ) -> Result<Judged, AllocError>
        requires short { length offer.now.client_id ≤ 7 }
        requires marked { AreMarked offer.now.on.tree self.old.table marks.now }
        ensures answers { IfOk result (λ judged. Judges self.old offer.now text.now judged.answer judged.holder self.new) }
        ensures err { OnErr result (self.new ≡ self.old) }
    {
        let on = offer.on;
        let verdict = judge(alloc, text, &self.audience, on.at)?;
        self.answer_to(alloc, offer, marks, verdict)
    }

    /// What is answered to a post whose token was judged so. Without memory nothing is changed; a refusal of the token takes none.
    fn answer_to(
        &mut self,
        alloc: Global,
        offer: &Offered<'_>,
        marks: &RevokedMarks,
        verdict: Result<(Claims, Scope), TokenError>,
    ) -> Result<Judged, AllocError>
        requires short { length offer.now.client_id ≤ 7 }
        requires marked { AreMarked offer.now.on.tree self.old.table marks.now }
        ensures answers { (text : List ℕ) → ComesTo text self.old.audience offer.now.on.at verdict
            → IfOk result (λ judged. Judges self.old offer.now text judged.answer judged.holder self.new) }
        ensures memory { IsErr result → (claims : AnyClaims) × (scope : AnyScope) × (verdict ≡ Ok (claims, scope))
            × (IsSome self.old.rules.revoked ⊎ (¬ IsFull self.old.rules.reserved claims.material.id (alive offer.now.on self.old.table))) }
        ensures err { OnErr result (self.new ≡ self.old) }
    {
        match verdict {
            Ok((claims, scope)) => self.agree_unless_refused(alloc, offer, marks, claims, scope),
            Err(error) => Ok(Judged {
                answer: Err(PostError::Token(error)),
                holder: None,
            }),
        }
    }

    /// Adds the context of these claims, unless their scope isn't taken, they are revoked or the table is full. Without memory nothing is
    /// changed; a scope that isn't taken is refused without memory, and so is a full table where there is no revocation path.
    fn agree_unless_refused(
        &mut self,
        alloc: Global,
        offer: &Offered<'_>,
        marks: &RevokedMarks,
        claims: Claims,
        scope: Scope,
    ) -> Result<Judged, AllocError>
        requires short { length offer.now.client_id ≤ 7 }
        requires marked { AreMarked offer.now.on.tree self.old.table marks.now }
        ensures answers { (text : List ℕ) → ComesTo text self.old.audience offer.now.on.at (Ok (claims, scope))
            → IfOk result (λ judged. Judges self.old offer.now text judged.answer judged.holder self.new) }
        ensures memory { IsErr result → IsSome self.old.rules.revoked ⊎ (¬ IsFull self.old.rules.reserved claims.material.id (alive offer.now.on self.old.table)) }
        ensures err { OnErr result (self.new ≡ self.old) }
    {
        if !self.rules.allows(&scope) {
            return Ok(Judged {
                answer: Err(PostError::Token(TokenError::BadScope)),
                holder: None,
            });
        }
        let revocation = self.revocation_of(alloc, claims.material.id.as_slice())?;
        let on = offer.on;
        if is_there(on.tree, &revocation) {
            return Ok(Judged {
                answer: Err(PostError::Revoked),
                holder: None,
            });
        }
        if self.is_full(on, marks, claims.material.id.as_slice()) {
            return Ok(Judged {
                answer: Err(PostError::Full),
                holder: None,
            });
        }
        match table::known(&self.table, claims.material.id.as_slice(), &offer.fields) {
            Some(made) => Ok(Judged {
                answer: self.answer_known(alloc, offer, marks, claims, made)?,
                holder: None,
            }),
            None => {
                let (answer, holder) = self.agree(
                    alloc,
                    offer,
                    marks,
                    (claims, scope),
                    revocation,
                )?;
                Ok(Judged {
                    answer: Ok(PostReply::New(answer)),
                    holder: Some(holder),
                })
            }
        }
    }

    /// Whether there is no room for this token id.
    fn is_full(&self, on: &Standing<'_>, marks: &RevokedMarks, token: &[u8]) -> bool
        requires { AreMarked on.now.tree self.now.table marks.now }
        ensures { IsTrue result ↔ IsFull self.now.rules.reserved token.now (alive on.now self.now.table) }
    {
        table::is_full(&self.table, on.at, marks, &self.rules.reserved, token)
    }

    /// What is answered to a post that is known: what it was answered before, while its context is held.
    fn answer_known(
        &self,
        alloc: Global,
        offer: &Offered<'_>,
        marks: &RevokedMarks,
        claims: Claims,
        made: PostAnswer,
    ) -> Result<Result<PostReply, PostError>, AllocError>
        requires { AreMarked offer.now.on.tree self.now.table marks.now }
        ensures { IfOk result (λ answer. IsKnownAnswer self.now offer.now claims made answer) }
    {
        let (_, name) = name_of(alloc, claims.material, &offer.fields, &made)?;
        if self.holds(offer.on, marks, &name) {
            Ok(Ok(PostReply::Known(made)))
        } else {
            Ok(Err(PostError::Replayed))
        }
    }

    /// Whether the context of this name is held, and lives.
    fn holds(&self, on: &Standing<'_>, marks: &RevokedMarks, name: &SharedName) -> bool
        requires { AreMarked on.now.tree self.now.table marks.now }
        ensures { IsTrue result ↔ IsStillHeld on.now name.now self.now.table }
    {
        match self.get(name.client_id.as_slice()) {
            Some(context) => context.name == *name && context.is_live(on, marks),
            None => false,
        }
    }

    /// The path at which a resource revokes the tokens of this id: none where the server has no revocation path, or the id is too long for
    /// one. Without memory for it an `AllocError`.
    pub fn revocation_of(&self, alloc: Global, id: &[u8]) -> Result<Option<Path>, AllocError>
        ensures path { IfOk result (λ path. path ≡ revocation_of self.now.rules.revoked id.now) }
        ensures memory { IsErr result → IsSome self.now.rules.revoked }
    {
        match &self.rules.revoked {
            Some(root) => revoked_path(alloc, root, id),
            None => Ok(None),
        }
    }

    /// Adds the context of these claims, and answers the nonce and the recipient ID of the server, and the id of the token. All memory is taken
    /// before the first change.
    fn agree(
        &mut self,
        alloc: Global,
        offer: &Offered<'_>,
        marks: &RevokedMarks,
        granted: (Claims, Scope),
        revocation: Option<Path>,
    ) -> Result<(PostAnswer, SharedBytes), AllocError>
        requires marked { AreMarked offer.now.on.tree self.old.table marks.now }
        requires short { length offer.now.client_id ≤ 7 }
        requires room { ¬ IsFull self.old.rules.reserved granted.0.material.id (alive offer.now.on self.old.table) }
        requires revocation { revocation ≡ revocation_of self.old.rules.revoked granted.0.material.id }
        ensures agreed { IfOk result (λ made. Agrees self.old offer.now granted.0 granted.1 made.0 self.new) }
        ensures holder { IfOk result (λ made. made.1 ≡ granted.0.material.id) }
        ensures err { OnErr result (self.new ≡ self.old) }
    {
        let on = offer.on;
        let (claims, scope) = granted;
        let token = claims.material.id.as_slice();
        let answer = PostAnswer {
            nonce2: offer.draw.nonce(),
            recipient_id: table::free_id(&self.table, on.at, marks, token, offer.fields.client_id),
        };
        let bounds = Bounds {
            revocation,
            ends: self.rules.end_of(on.at),
        };
        let (token, context) = context_of(alloc, claims, scope, &offer.fields, &answer, bounds)?;
        let room = PostRoom::new(alloc, self.rules.remembered, &offer.fields, answer)?;
        let holder = token.clone()?;
        self.table.reserve_exact(1)?;
        let added = Addition {
            token,
            context,
            room,
        };
        table::add_pending(alloc, &mut self.table, on.at, marks, added);
        self.places = places_of(&self.table);
        Ok((answer, holder))
    }

    /// The live context that a request's kid and kid context name; the marks say which are of revoked tokens.
    pub fn find(
        &self,
        on: &Standing<'_>,
        marks: &RevokedMarks,
        kid: &[u8],
        kid_context: Option<&[u8]>,
    ) -> Option<&ServerContext>
        requires marked { AreMarked on.now.tree self.now.table marks.now }
        ensures found { option_map (λ context. context.now) result ≡ meant on.now kid.now (option_map (λ bytes. bytes.now) kid_context.entry) self.now.table }
        ensures table { IsTable self.now.table }
    {
        match table::with_id(&self.table, &self.places, kid) {
            Some(context) if context.is_live(on, marks) && context.is_named(kid_context) => {
                Some(context)
            }
            _ => None,
        }
    }

    /// The id of the token that made the context with this recipient ID.
    pub fn holder(&self, id: &[u8]) -> Option<&SharedBytes>
        ensures { option_map (λ holder. holder.now) result ≡ holder_at id.now self.now.table }
    {
        table::holder(&self.table, &self.places, id)
    }

    /// The path below which a resource revokes a token, if the desk has one.
    pub fn revoked(&self) -> Option<&Path>
        ensures { option_map (λ path. path.now) result ≡ self.now.rules.revoked }
    {
        self.rules.revoked.as_ref()
    }

    /// The marks of the contexts, by what the tree has: it is looked into once for each. Takes no memory.
    pub fn marks(&self, tree: &Tree) -> RevokedMarks
        ensures { AreMarked tree.now self.now.table result }
    {
        RevokedMarks::of(&self.table, tree)
    }

    /// Where the tree changed at this path alone, lets the marks say of the contexts what it has now: it is looked into once.
    pub fn mark(&self, marks: &mut RevokedMarks, tree: &Tree, path: &Path)
        ensures { (before : Resources) → IsSameBut before tree.now path.now → AreMarked before self.now.table marks.old → AreMarked tree.now self.now.table marks.new }
    {
        marks.set(&self.table, path, has_resource(tree, path));
    }

    /// For proofs: its contexts are a table. Does nothing.
    pub fn has_a_table(&self)
        ensures { IsTable self.now.table }
    {
        let _ = &self.table;
    }

    /// For proofs: where a place is reserved, the token id has it, or it is free. Does nothing.
    pub fn keeps_a_place(&self)
        ensures { KeepsPlace self.now.rules.reserved self.now.table }
    {
        let _ = &self.table;
    }

    /// The context with this recipient ID, live or not.
    pub fn get(&self, id: &[u8]) -> Option<&ServerContext>
        ensures { option_map (λ context. context.now) result ≡ with_id id.now self.now.table }
    {
        table::with_id(&self.table, &self.places, id)
    }

    /// The context that a request has opened under of the token id at this place, as [`ServerDesk::accept`] answers it; no look-up.
    pub fn confirmed_at(&self, place: usize) -> Option<&ServerContext>
        ensures { option_map (λ context. context.now) result ≡ confirmed_at place self.now.table }
    {
        self.table.get(place)?.confirmed.as_ref()
    }

    /// The last answer of the context with this recipient ID, where a request has opened under that and its answer is kept.
    pub fn last_answer(&self, id: &[u8]) -> Option<&LastAnswer>
        ensures { option_map (λ last. last.now) result ≡ last_at id.now self.now.table }
    {
        table::last_answer(&self.table, &self.places, id)
    }

    /// Whether the last answer of each context is to be kept.
    pub fn keeps_answers(&self) -> bool
        ensures { result ≡ self.now.rules.answers }
    {
        self.rules.answers
    }

    /// This is the last answer of the context that a request has opened under of the token id at this place, as [`ServerDesk::accept`] answers
    /// it. Takes no memory.
    pub fn keep_answer(&mut self, place: usize, last: LastAnswer)
        requires there { (held : SecurityContext) × (confirmed_at place self.old.table ≡ Some held) }
        ensures { IfSome (confirmed_at place self.old.table) (λ held. self.new ≡ record self.old { table = with_last held.name.client_id last self.old.table }) }
    {
        table::keep_answer(&mut self.table, &self.places, place, last);
    }

    /// A request with this fresh number opened under the context with this recipient ID: its window takes the number, and the
    /// right to one reply comes from it. If the context was pending, it is confirmed, and the older one of its token id goes. The answer to
    /// an older number goes. Answers
    /// the place of the context's token id as well, so that it needn't be looked up again. Takes no memory.
    pub fn accept(&mut self, id: &[u8], number: u64) -> (AcceptedNumber, usize)
        requires fresh { (held : SecurityContext) × (with_id id.now self.old.table ≡ Some held) × IsFresh held.window number }
        requires number { number ≤ greatest_number }
        ensures right { IfSome (with_id id.now self.old.table) (λ held. result.0 ≡ accepted_of held.name Server number) }
        ensures placed { IfSome (with_id id.now self.old.table) (λ held. confirmed_at result.1 self.new.table ≡ Some (taking number held)) }
        ensures found { IfSome (with_id id.now self.old.table) (λ held. with_id id.now self.new.table ≡ Some (taking number held)) }
        ensures accepted { self.new ≡ record self.old { table = accepted id.now number self.old.table } }
        ensures table { IsTable self.new.table }
    {
        table::accept(&mut self.table, &mut self.places, id, number)
    }

    /// Forgets all contexts.
    pub fn clear(&mut self)
        ensures { self.new ≡ record self.old { table = [] } }
    {
        self.table.clear();
        self.places = [NOWHERE; 256];
    }
}
