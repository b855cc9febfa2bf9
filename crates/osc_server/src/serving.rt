//! Protected requests (RFC 8613 sections 8.2 and 8.3): a request is opened without memory until it is known to be genuine, then all
//! memory is taken before the number is accepted, and nothing fails from there but what is answered by 5.00.
ghost use Rattle.std.specs.Prelude.{◌≡◌, ◌<◌, ◌≤◌, ◌+◌, ℕ, List, [], length, Ok, Some, None, IfOk, IfErr, IfSome, IfNone, option_map, unwrap_or};
ghost use Rattle.osc_coap.specs.{Spells};
ghost use Rattle.osc_coap.specs.Message.{Message as AnyMessage};
ghost use Rattle.osc_authz.specs.SecurityContext.{SecurityContext};
ghost use Rattle.osc_authz.specs.{AreMarked, confirmed_at, holder_at, longest_sealed};
ghost use Rattle.osc_context.specs.{algorithm_of, accepted_of};
ghost use Rattle.osc_model.specs.declared.context.Side.TheVariants.{Server};
ghost use Rattle.osc_model.specs.{apply_read};
ghost use Rattle.osc_protect.specs.{aad_of, IsFor, IsRequest, IsProtectedResponse, SealedRequest};
ghost use Rattle.osc_run.specs.{opening_note, reply_note, Replies as AppliesTo};
ghost use Rattle.osc_options.specs.{read_request, value as value_in, IsWithinRanges};
ghost use Rattle.osc_model.specs.Tree.{Tree as AnyTree};
ghost use Rattle.osc_server.specs.Inner.Parts.{DifferAt, FitsAResource, IsReady, IsReplyOf, IsSentAs, IsServedAs, IsTakenFor, IsUnserved, if_kept, kept_answer, kept_sealed, may_change_by, message_beside_sealed, reply_length, read_length as read_length_of, text_beside_payload, with_kept};
ghost use Rattle.osc_server.specs.Table.{context_for, IsMeant, IsOpened, IsSealed, notes_of_request, reply_to as reply_to_of};
ghost use Rattle.osc_window.specs.{IsFresh};

use crate::Endpoint;
use crate::answer::header_to;
use crate::in_hand::InHand;
use crate::refusal::Refusal;
use osc_authz::laws::{meant_contexts, one_path_changed};
use osc_authz::{LastAnswer, RevokedMarks, ServerContext, ServerDesk, Standing};
use osc_ccm::Ciphers;
use osc_coap::MessageRef;
use osc_coap::laws::{length_of_plaintext, length_of_spelling};
use osc_context::AcceptedNumber;
use osc_message::{Arrival, MessageRoom, ReplyRoom};
use osc_model::limits::GET;
use osc_model::{
    Bytes, Code, Datagrams, Entry, Note, Path, Peer, Reply, Request, SharedBytes, SharedName,
    StepNotes,
};
use osc_options::{OscoreValue, request_in};
use osc_protect::{
    Malformed, Room, SealedReply, SealedRequestRef, open_request, read_request, seal_reply,
};
use osc_run::kinds;
use osc_scope::{Scope, Verdict};
use osc_tree::Tree;
use std::alloc::{AllocError, Global};

/// The result of a protected request: the protected reply, and what is noted.
#[derive(Drop)]
pub struct SealedAnswer {
    /// The datagram of the protected reply.
    pub out: Datagrams,
    /// Its bytes, for a repeat of the request.
    pub reply: Bytes,
    /// What is noted of the step.
    pub notes: StepNotes,
}

/// The most bytes of a reply's plaintext beside its payload: a code, an ETag, a Content-Format, and the payload marker.
const PLAINTEXT_BESIDE_PAYLOAD: usize = 14;

/// The most bytes of a protected reply beside what is sealed in it: header, token, an empty OSCORE option, and the payload marker.
const MESSAGE_BESIDE_SEALED: usize = 14;

/// A protected request: what came, and what it says before it is opened.
#[derive(Drop)]
pub struct SealedArrival<'a> {
    /// What came.
    pub came: &'a Arrival<'a>,
    /// What its message says.
    pub says: SealedRequestRef<'a>,
}

/// What a protected request says, whose OSCORE option has this value; takes no memory.
///
/// # Errors
///
/// Exactly where the message isn't one.
pub fn sealed_request<'a>(
    value: &OscoreValue<'a>,
    message: &MessageRef<'a>,
) -> Result<SealedRequestRef<'a>, Malformed>
    requires { value_in 9 message.now.options ≡ Some value.now }
    ensures found { IfOk result (λ request. IsRequest message.now request) }
    ensures only { (request : SealedRequest) → IsRequest message.now request → result ≡ Ok request }
{
    read_request(value, message)
}

/// The live context that the request means; takes no memory.
fn meant_context<'a>(
    desk: &'a ServerDesk,
    tree: &Tree,
    marks: &RevokedMarks,
    request: &SealedArrival<'_>,
) -> Option<&'a ServerContext>
    requires says { IsRequest request.now.came.now.what request.now.says }
    requires marked { AreMarked tree.now desk.now.table marks.now }
    ensures some { IfSome result (λ context. IsMeant (record { tree = tree.now; table = desk.now.table }) request.now.came.now request.now.says context.now) }
    ensures none { IfNone result (context_for (record { tree = tree.now; table = desk.now.table }) request.now.came.now request.now.says ≡ None) }
{
    let came = request.came;
    let says = &request.says;
    let on = Standing { at: came.at, tree };
    desk.find(&on, marks, says.kid(), says.kid_context())
}

/// The same, where the request's number is fresh.
fn fresh_context<'a, A: Ciphers>(
    desk: &'a ServerDesk,
    tree: &Tree,
    marks: &RevokedMarks,
    request: &SealedArrival<'_>,
) -> Result<&'a ServerContext, Refusal>
    requires says { IsRequest request.now.came.now.what request.now.says }
    requires marked { AreMarked tree.now desk.now.table marks.now }
    ensures meant { IfOk result (λ context. IsMeant (record { tree = tree.now; table = desk.now.table }) request.now.came.now request.now.says context.now) }
    ensures fresh { IfOk result (λ context. IsFresh context.now.window request.now.says.number) }
    ensures refused { IfErr result (λ refusal. IsUnserved A.is_sealing (record { tree = tree.now; table = desk.now.table }) request.now.came.now refusal) }
{
    let Some(context) = meant_context(desk, tree, marks, request) else {
        return Err(Refusal::NoContext);
    };
    if !context.recipient().is_fresh(request.says.number()) {
        return Err(Refusal::Replayed);
    }
    Ok(context)
}

/// The most bytes of payload that the reply has.
fn most_payload(tree: &Tree, read: &Result<Request, Code>) -> usize
    ensures value { result ≡ reply_length tree.now read.now }
    ensures limit { result ≤ 512 }
{
    match read {
        Ok(request) if request.code.0 == GET => match &request.path {
            Some(path) => read_length(tree, path),
            None => 0,
        },
        _ => 0,
    }
}

/// How many bytes the path has.
fn read_length(tree: &Tree, path: &Path) -> usize
    ensures value { result ≡ read_length_of tree.now (Some path.now) }
    ensures limit { result ≤ 512 }
{
    match tree.get(path) {
        Some(resource) => resource.payload.len(),
        None => 0,
    }
}

/// What an opened request does to the tree, and its reply: 5.00 for lack of memory.
fn applied(
    alloc: Global,
    root: Option<&Path>,
    tree: &mut Tree,
    scope: &Scope,
    read: &Result<Request, Code>,
) -> Reply
    requires { IfErr read.now (λ code. 0 < code.0) }
    ensures applied { AppliesTo tree.old (apply_read (option_map (λ path. path.now) root.entry) tree.old scope.now read.now) result tree.new }
    ensures short { IsReplyOf (reply_length tree.old read.now) result }
    ensures within { IsWithinRanges result }
{
    match read {
        Ok(request) => match tree.apply(alloc, root, scope, request) {
            Ok(reply) => reply,
            Err(_) => Reply::bare(alloc, Code::INTERNAL_SERVER_ERROR),
        },
        Err(code) => Reply::bare(alloc, *code),
    }
}

/// The memory of an answer that is kept for when its request comes again: what the request carried sealed, and room for what the reply carries
/// sealed.
#[derive(Drop)]
struct KeptRoom {
    sealed: Bytes,
    reply: MessageRoom,
}

/// The memory of the answer to a request that carried this sealed, where it is kept: `size` bytes for what the reply carries sealed.
fn kept_room(
    alloc: Global,
    sealed: Option<&[u8]>,
    size: usize,
) -> Result<Option<KeptRoom>, AllocError>
    ensures sealed { IfOk result (λ kept. kept_sealed kept ≡ option_map (λ bytes. bytes.now) sealed.entry) }
    ensures room { IfOk result (λ kept. IfSome kept (λ kept. kept.reply ≡ size)) }
{
    match sealed {
        Some(sealed) => Ok(Some(KeptRoom {
            sealed: Bytes::from_slice(alloc, sealed)?,
            reply: MessageRoom::new(alloc, size)?,
        })),
        None => Ok(None),
    }
}

/// What a datagram carries sealed.
fn sealed_in(datagram: &[u8]) -> &[u8]
    requires { (m : AnyMessage) × Spells datagram.now m }
    ensures { (m : AnyMessage) → Spells datagram.now m → result.now ≡ unwrap_or m.payload [] }
{
    match MessageRef::parse(datagram) {
        Ok(message) => message.payload().unwrap_or(&[]),
        // The bytes are a message.
        Err(_) => unreachable!(),
    }
}

/// The answer to the request of this peer and number, where it is kept: what this datagram carries sealed. Takes no memory.
fn kept(room: Option<KeptRoom>, from: Peer, number: u64, reply: &[u8]) -> Option<LastAnswer>
    requires short { length reply.now ≤ longest_sealed }
    requires room { IfSome room (λ room. length reply.now ≤ room.reply) }
    ensures { result ≡ kept_answer from number reply.now (kept_sealed room) }
{
    match room {
        Some(room) => {
            let KeptRoom {
                sealed,
                reply: bytes,
            } = room;
            Some(LastAnswer::new(from, number, sealed, bytes.fill(reply)))
        }
        None => None,
    }
}

/// This is the last answer of the context of the token id at this place, where one is kept; takes no memory.
fn keep(desk: &mut ServerDesk, place: usize, last: Option<LastAnswer>)
    requires there { (held : SecurityContext) × (confirmed_at place desk.old.table ≡ Some held) }
    ensures { IfSome (confirmed_at place desk.old.table) (λ held. desk.new ≡ record desk.old { table = with_kept held.name.client_id last desk.old.table }) }
{
    if let Some(last) = last {
        desk.keep_answer(place, last);
    }
}

/// The memory of a protected reply, taken before anything changes.
#[derive(Drop)]
struct AnswerRoom {
    /// For its seal.
    seal: Room,
    /// For its datagram, and for the copy that answers a repeat.
    datagram: ReplyRoom,
    /// For the answer that is kept, where answers are.
    kept: Option<KeptRoom>,
}

/// A protected reply that is sent.
#[derive(Drop)]
struct SentAnswer {
    /// Its datagram.
    out: Datagrams,
    /// Its bytes, for a repeat of the request.
    reply: Bytes,
    /// The answer that is kept, where answers are.
    last: Option<LastAnswer>,
    /// What is noted of its seal.
    note: Note,
}

/// What an opened request asks, and the memory of all that follows, taken before anything changes.
#[derive(Drop)]
pub struct ReservedAnswer {
    /// The note of the opening.
    note: Note,
    /// The request, or the code that answers the text: for the entry, as the name and the text.
    read: Result<Request, Code>,
    context: SharedName,
    plaintext: Bytes,
    /// The id of the token that made the context.
    holder: Option<SharedBytes>,
    /// For the protected reply.
    room: AnswerRoom,
}

/// The reply to a request that was opened, protected under its nonce, as it goes to the peer and as it is kept, and the note of its seal: it
/// fits, since no reply has more than 512 bytes. Takes no memory.
fn sent<A: Ciphers>(
    room: AnswerRoom,
    number: AcceptedNumber,
    context: &ServerContext,
    endpoint: &Endpoint,
    came: &Arrival<'_>,
    reply: &Reply,
) -> SentAnswer
    requires number { number ≡ accepted_of context.now.name Server number.number }
    requires name { room.seal.name ≡ context.now.name }
    requires about { room.seal.number ≡ number.number }
    requires short { FitsAResource reply.now }
    requires seal { text_beside_payload + length reply.now.payload ≤ room.seal.most }
    requires datagram { message_beside_sealed + text_beside_payload + length reply.now.payload + A.TAG (algorithm_of context.now.name) ≤ room.datagram }
    requires kept { IfSome room.kept (λ kept. text_beside_payload + length reply.now.payload + A.TAG (algorithm_of context.now.name) ≤ kept.reply) }
    ensures sent { (answer : AnyMessage) × (protected : IsProtectedResponse A.is_sealing context.now.name number.number None
        (reply_to_of endpoint.now came.now reply.now) answer)
        × IsSentAs came.now.from answer result.out result.reply
        × (result.last ≡ kept_answer came.now.from number.number protected.sealed (kept_sealed room.kept)) }
    ensures noted { result.note ≡ reply_note context.now.name number.number reply.now }
{
    kinds::what_is_sealed();
    length_of_spelling();
    length_of_plaintext();
    let AnswerRoom {
        seal,
        datagram,
        kept: kept_room,
    } = room;
    let about = number.get();
    let (datagram, copy) = datagram.open();
    let header = header_to(endpoint, came);
    let sealed = seal_reply::<A>(
        seal,
        number,
        context.sender(),
        header,
        reply,
        datagram.into_vec(),
    );
    let SealedReply { datagram, note } = sealed;
    let last = kept(kept_room, came.from, about, sealed_in(datagram.as_slice()));
    let (out, reply) = copy.fill(came.from, datagram);
    SentAnswer {
        out,
        reply,
        last,
        note,
    }
}

/// A protected request that opened, with the memory of all that follows, or why it isn't served; or that memory was refused.
pub type Prepared = Result<Result<ReservedAnswer, Refusal>, AllocError>;

impl ReservedAnswer {
    /// Reads what was opened, and takes the memory of all that follows; with what the request carried sealed, where its answer is kept.
    #[inline(never)]
    fn new<A: Ciphers>(
        alloc: Global,
        tree: &Tree,
        note: Note,
        holder: Option<SharedBytes>,
        kept: Option<&[u8]>,
    ) -> Result<ReservedAnswer, AllocError>
        requires { note.aad ≡ aad_of note.context note.number }
        ensures holder { IfOk result (λ taken. taken.holder ≡ holder) }
        ensures note { IfOk result (λ taken. taken.note ≡ note) }
        ensures kept { IfOk result (λ taken. kept_sealed taken.room.kept ≡ option_map (λ bytes. bytes.now) kept.entry) }
        ensures taken { IfOk result (λ taken. IsTakenFor A.TAG tree.now taken) }
    {
        let read = request_in(alloc, note.plaintext.as_slice())?;
        let most = PLAINTEXT_BESIDE_PAYLOAD + most_payload(tree, &read);
        let tag = A::tag(osc_context::algorithm_of(&note.context));
        let context = note.context.clone()?;
        let plaintext = note.plaintext.clone()?;
        let room = AnswerRoom {
            seal: Room::answering(alloc, &note, most)?,
            datagram: ReplyRoom::new(alloc, MESSAGE_BESIDE_SEALED + most + tag)?,
            kept: kept_room(alloc, kept, most + tag)?,
        };
        Ok(ReservedAnswer {
            note,
            read,
            context,
            plaintext,
            holder,
            room,
        })
    }

    /// The result of the request with this reply, which is protected under the number that the context accepted; takes no memory.
    fn answered<A: Ciphers>(
        self,
        context: &ServerContext,
        number: AcceptedNumber,
        endpoint: &Endpoint,
        came: &Arrival<'_>,
        reply: Reply,
    ) -> (SealedAnswer, Option<LastAnswer>)
        requires number { number ≡ accepted_of context.now.name Server number.number }
        requires noted { self.note ≡ opening_note context.now.name number.number self.note.plaintext }
        requires taken { (tree : AnyTree) × IsTakenFor A.TAG tree self × IsReplyOf (reply_length tree self.read) reply }
        ensures protected { (answer : AnyMessage) × (protected : IsProtectedResponse A.is_sealing context.now.name number.number None
            (reply_to_of endpoint.now came.now reply) answer)
            × IsSentAs came.now.from answer result.0.out result.0.reply
            × (result.1 ≡ kept_answer came.now.from number.number protected.sealed (kept_sealed self.room.kept)) }
        ensures noted { result.0.notes ≡ notes_of_request came.now.at context.now self.holder number.number self.note.plaintext reply }
    {
        let ReservedAnswer {
            note,
            read,
            context: name,
            plaintext,
            holder,
            room,
        } = self;
        let accepted = number.get();
        let SentAnswer {
            out,
            reply: bytes,
            last,
            note: sealed,
        } = sent::<A>(room, number, context, endpoint, came, &reply);
        let entry = Entry {
            context: name,
            number: accepted,
            plaintext,
            request: read,
            moment: came.at,
            reply,
        };
        let answer = SealedAnswer {
            out,
            reply: bytes,
            notes: StepNotes::of_request(sealed, note, entry, holder),
        };
        (answer, last)
    }
}

/// Accepts the number of a request that was opened, serves the request, and keeps the answer, where answers are kept; takes no memory but the
/// tree's.
#[inline(never)]
pub fn serve_opened<A: Ciphers>(
    alloc: Global,
    desk: &mut ServerDesk,
    tree: &mut Tree,
    endpoint: &Endpoint,
    request: &SealedArrival<'_>,
    taken: ReservedAnswer,
) -> SealedAnswer
    requires { IsReady A.is_sealing A.TAG desk.old.rules.answers (record { tree = tree.old; table = desk.old.table }) request.now.came.now request.now.says taken }
    ensures served { IsServedAs A.is_sealing (record { tree = tree.old; desk = desk.old; endpoint = endpoint.now }) request.now.came.now request.now.says result tree.new desk.new }
    ensures changed { DifferAt (may_change_by result.notes.served) tree.old tree.new }
{
    one_path_changed();
    meant_contexts();
    let says = &request.says;
    let (number, place) = desk.accept(says.kid(), says.number());
    let context = desk.confirmed_at(place).unwrap();
    let reply = applied(alloc, desk.revoked(), tree, context.scope(), &taken.read);
    let (answer, last) = taken.answered::<A>(context, number, endpoint, request.came, reply);
    keep(desk, place, last);
    answer
}

/// Opens a protected request, if it is genuine.
fn open<A: Ciphers>(
    alloc: Global,
    context: &ServerContext,
    request: &SealedRequestRef<'_>,
) -> Result<Option<Note>, AllocError>
    requires { IsFor context.now.name request.now }
    ensures opened { IfOk result (λ opened. IfSome opened (λ note. IsSealed A.is_sealing context.now request.now note.plaintext)) }
    ensures noted { IfOk result (λ opened. IfSome opened (λ note. note ≡ opening_note context.now.name request.now.number note.plaintext)) }
    ensures none { IfOk result (λ opened. IfNone opened ((text : List ℕ) → ¬ IsSealed A.is_sealing context.now request.now text)) }
{
    let opened = open_request::<A>(alloc, context.name(), context.recipient(), request)?;
    Ok(opened.ok())
}

/// Opens a protected request under the context that it means, at a fresh number, or says why it isn't served.
#[inline(never)]
fn opened<A: Ciphers>(
    alloc: Global,
    desk: &ServerDesk,
    tree: &Tree,
    marks: &RevokedMarks,
    request: &SealedArrival<'_>,
) -> Result<Result<Note, Refusal>, AllocError>
    requires says { IsRequest request.now.came.now.what request.now.says }
    requires marked { AreMarked tree.now desk.now.table marks.now }
    ensures opened { IfOk result (λ outcome. IfOk outcome (λ note. (held : SecurityContext)
        × IsOpened A.is_sealing (record { tree = tree.now; table = desk.now.table }) request.now.came.now request.now.says held note.plaintext
        × (note ≡ opening_note held.name request.now.says.number note.plaintext))) }
    ensures refused { IfOk result (λ outcome. IfErr outcome (λ refusal. IsUnserved A.is_sealing (record { tree = tree.now; table = desk.now.table }) request.now.came.now refusal)) }
{
    meant_contexts();
    let context = match fresh_context::<A>(desk, tree, marks, request) {
        Ok(context) => context,
        Err(refusal) => return Ok(Err(refusal)),
    };
    match open::<A>(alloc, context, &request.says)? {
        Some(note) => Ok(Ok(note)),
        None => Ok(Err(Refusal::NotGenuine)),
    }
}

/// The id of the token that made the context which the request names; takes no memory.
fn holder_of(
    desk: &ServerDesk,
    says: &SealedRequestRef<'_>,
) -> Result<Option<SharedBytes>, AllocError>
    ensures { IfOk result (λ holder. holder ≡ holder_at says.now.kid desk.now.table) }
{
    match desk.holder(says.kid()) {
        Some(id) => Ok(Some(id.clone()?)),
        None => Ok(None),
    }
}

/// What the request carries sealed, where answers are kept.
fn kept_of<'a>(desk: &ServerDesk, says: &SealedRequestRef<'a>) -> Option<&'a [u8]>
    ensures { option_map (λ bytes. bytes.now) result ≡ if_kept desk.now.rules.answers says.now.sealed }
{
    if desk.keeps_answers() {
        Some(says.sealed())
    } else {
        None
    }
}

/// Opens a protected request, and takes the memory of all that follows, or says why it isn't served.
fn taken_for<A: Ciphers>(
    alloc: Global,
    desk: &ServerDesk,
    tree: &Tree,
    marks: &RevokedMarks,
    request: &SealedArrival<'_>,
) -> Prepared
    requires says { IsRequest request.now.came.now.what request.now.says }
    requires marked { AreMarked tree.now desk.now.table marks.now }
    ensures ready { IfOk result (λ outcome. IfOk outcome (IsReady A.is_sealing A.TAG desk.now.rules.answers (record { tree = tree.now; table = desk.now.table }) request.now.came.now request.now.says)) }
    ensures refused { IfOk result (λ outcome. IfErr outcome (IsUnserved A.is_sealing (record { tree = tree.now; table = desk.now.table }) request.now.came.now)) }
{
    match opened::<A>(alloc, desk, tree, marks, request)? {
        Ok(note) => {
            let holder = holder_of(desk, &request.says)?;
            let kept = kept_of(desk, &request.says);
            let taken = ReservedAnswer::new::<A>(alloc, tree, note, holder, kept)?;
            Ok(Ok(taken))
        }
        Err(refusal) => Ok(Err(refusal)),
    }
}

/// The same. What is in hand is given back for a request that may change what is below the revocation path, and for no other: where memory
/// is refused it is taken again at once, unless the request is found to be such a one with its help.
#[inline(never)]
pub fn prepared<A: Ciphers>(
    alloc: Global,
    desk: &ServerDesk,
    tree: &Tree,
    marks: &RevokedMarks,
    request: &SealedArrival<'_>,
    in_hand: &mut InHand,
) -> Prepared
    requires says { IsRequest request.now.came.now.what request.now.says }
    requires marked { AreMarked tree.now desk.now.table marks.now }
    ensures ready { IfOk result (λ outcome. IfOk outcome (IsReady A.is_sealing A.TAG desk.now.rules.answers (record { tree = tree.now; table = desk.now.table }) request.now.came.now request.now.says)) }
    ensures refused { IfOk result (λ outcome. IfErr outcome (IsUnserved A.is_sealing (record { tree = tree.now; table = desk.now.table }) request.now.came.now)) }
{
    let prepared = taken_for::<A>(alloc, desk, tree, marks, request);
    if may_revoke(desk, tree, marks, request, &prepared) {
        in_hand.give_back();
    } else if prepared.is_err() && in_hand.give_back() {
        return prepared_in_hand::<A>(alloc, desk, tree, marks, request, in_hand);
    }
    prepared
}

/// The same, where what was in hand has been given back: without memory still, and for a request that isn't such a one, an `AllocError`.
fn prepared_in_hand<A: Ciphers>(
    alloc: Global,
    desk: &ServerDesk,
    tree: &Tree,
    marks: &RevokedMarks,
    request: &SealedArrival<'_>,
    in_hand: &mut InHand,
) -> Prepared
    requires says { IsRequest request.now.came.now.what request.now.says }
    requires marked { AreMarked tree.now desk.now.table marks.now }
    ensures ready { IfOk result (λ outcome. IfOk outcome (IsReady A.is_sealing A.TAG desk.now.rules.answers (record { tree = tree.now; table = desk.now.table }) request.now.came.now request.now.says)) }
    ensures refused { IfOk result (λ outcome. IfErr outcome (IsUnserved A.is_sealing (record { tree = tree.now; table = desk.now.table }) request.now.came.now)) }
{
    let prepared = taken_for::<A>(alloc, desk, tree, marks, request);
    if may_revoke(desk, tree, marks, request, &prepared) {
        return prepared;
    }
    drop(prepared);
    in_hand.take(alloc);
    Err(AllocError)
}

/// Whether a request opened that may change what is at the revocation path or below: it names a path there, and is a change that its context's
/// scope grants.
fn may_revoke(
    desk: &ServerDesk,
    tree: &Tree,
    marks: &RevokedMarks,
    request: &SealedArrival<'_>,
    prepared: &Prepared,
) -> bool
    requires says { IsRequest request.now.came.now.what request.now.says }
    requires marked { AreMarked tree.now desk.now.table marks.now }
{
    let Some(root) = desk.revoked() else {
        return false;
    };
    let Some(asked) = asked_in(prepared) else {
        return false;
    };
    if !is_change_below(root, asked) {
        return false;
    }
    match meant_context(desk, tree, marks, request) {
        Some(context) => {
            context.scope().verdict(asked.path.as_ref(), asked.code) == Verdict::Granted
        }
        None => false,
    }
}

/// What is asked, where a request opened and its text is one.
fn asked_in(prepared: &Prepared) -> Option<&Request> {
    match prepared {
        Ok(Ok(taken)) => taken.read.as_ref().ok(),
        _ => None,
    }
}

/// Whether the request asks for a change of what is at this path or below it.
fn is_change_below(root: &Path, asked: &Request) -> bool {
    match &asked.path {
        Some(path) => asked.code.0 != GET && path.begins_with(root),
        None => false,
    }
}
