//! Laws of the definitions, for the crates above. These functions do nothing: whoever calls one has its clauses for a proof.
ghost use Rattle.std.specs.Prelude.{◌≡◌, ◌≤◌, ◌<◌, ◌^◌, ◌∷◌, ◌++◌, ℕ, false, true, ◌||◌, not, if◌then◌else◌, [], List, length, filter, map, Option, Some};
ghost use Rattle.std.specs.List.{filter_map};
ghost use Rattle.std.specs.Option.{option_to_list};
ghost use Rattle.osc_model.specs.declared.bytes.Bytes.{Bytes as AnyBytes};
ghost use Rattle.osc_model.specs.declared.node.Draw.{Draw as AnyDraw};
ghost use Rattle.osc_model.specs.declared.node.Moment.{Moment as AnyMoment};
ghost use Rattle.osc_model.specs.declared.node.Peer.{Peer as AnyPeer};
ghost use Rattle.osc_coap.specs.{datagram_limit, HasSpelling, spelling};
ghost use Rattle.osc_coap.specs.Message.{Message};
ghost use Rattle.osc_message.specs.Confirmables.{Sent as AnySent, Open as AnyOpen, acknowledged, has_open, has_outstanding, takes};
ghost use Rattle.osc_message.specs.Pace.{Pace as AnyPace, goes_at_once, slowed, with_open};
ghost use Rattle.osc_dedup.specs.{Entry};
ghost use Rattle.osc_message.specs.Heard.{heard};
ghost use Rattle.osc_message.specs.declared.heard.Heard.TheVariants as heard_as;
ghost use Rattle.osc_message.specs.declared.received.Received.TheVariants as received_as;
ghost use Rattle.osc_message.specs.Limits.{IsWithinLimits};
ghost use Rattle.osc_message.specs.Received.{Receives};
ghost use Rattle.osc_message.specs.Schedule.{done_over, done_among, schedule, is_sending};
ghost use Rattle.osc_message.specs.Sending.{empty_acknowledgement, reply_id, reply_start, reset};
ghost use Rattle.osc_message.specs.Ticks.{acts, outstanding_due, dues, dues_of, after, ticked, tick_repeats, tick_sends, waiting_due};
ghost use Rattle.osc_message.specs.declared.due.Due.TheVariants.{Keep, Send};
ghost use Rattle.osc_message.specs.declared.received.Received.{Received as AnyReceived};

use osc_coap::laws::{growing, length_of_growing, one_message, one_spelling};

/// No datagram is received in two ways.
pub fn one_reception()
    ensures { (bytes : List ℕ) (a b : AnyReceived) → Receives bytes a → Receives bytes b → a ≡ b }
{
    one_message();
    one_spelling();
}

/// What is heard as a message is the message that came.
pub fn what_is_heard()
    ensures { (seen : List Entry) (now : AnyMoment) (from : AnyPeer) (received : AnyReceived) (message : Message)
        → heard seen now from received ≡ heard_as.Message message → received ≡ received_as.Message message }
{}

/// What a node sends of its own has a spelling, by which it is read again: a Reset, an empty acknowledgement, and a reply as far as
/// its token.
pub fn what_nodes_send()
    ensures reset { (id : ℕ) → id < 2 ^ 16 → HasSpelling (reset id) }
    ensures acknowledgement { (id : ℕ) → id < 2 ^ 16 → HasSpelling (empty_acknowledgement id) }
    ensures short { (id : ℕ) → (length (spelling (reset id)) ≤ datagram_limit) × (length (spelling (empty_acknowledgement id)) ≤ datagram_limit) }
    ensures reply { (draw : AnyDraw) (next_id : Option ℕ) (request : Message) (code : ℕ) → HasSpelling request → reply_id draw next_id request < 2 ^ 16 → 0 < code
        → HasSpelling (reply_start draw next_id request code) }
{
    growing();
    length_of_growing();
}

/// Whatever happens to them, the open messages stay within their limits.
pub fn within_limits()
    ensures sent { (pace : AnyPace) (now : AnyMoment) (to : AnyPeer) (id timeout : ℕ) (bytes : AnyBytes) (all : List AnyOpen)
        → takes to all ≡ true → IsWithinLimits pace all → IsWithinLimits pace (with_open pace now to id timeout bytes all) }
    ensures acknowledged { (pace : AnyPace) (peer : AnyPeer) (id : ℕ) (all : List AnyOpen)
        → IsWithinLimits pace all → IsWithinLimits pace (acknowledged peer id all) }
    ensures ticked { (pace : AnyPace) (now : AnyMoment) (all : List AnyOpen) → IsWithinLimits pace all → IsWithinLimits pace (ticked pace now all) }
    ensures paced { (pace other : AnyPace) (all : List AnyOpen) → pace.more ≡ other.more → IsWithinLimits pace all → IsWithinLimits other all }
    ensures slowed { (peers : List AnyPeer) (pace : AnyPace) → (slowed peers pace).more ≡ pace.more }
{}

/// A message to a peer to which none is open goes out at once. Where one at a time is outstanding to a peer, one goes out at once exactly where
/// none is open to its peer; and one that waits exactly where none is outstanding to its peer, and none that is open to it was made before.
pub fn one_at_a_time()
    ensures idle { (pace : AnyPace) (peer : AnyPeer) (all : List AnyOpen) → has_open peer all ≡ false → goes_at_once pace peer all ≡ true }
    ensures goes { (pace : AnyPace) (peer : AnyPeer) (all : List AnyOpen) → pace.more ≡ 0 → goes_at_once pace peer all ≡ not (has_open peer all) }
    ensures waits { (pace : AnyPace) (earlier later : List AnyOpen) (message : AnyOpen) → pace.more ≡ 0
        → waiting_due pace (earlier ++ message ∷ later) earlier message
        ≡ (if has_outstanding message.to (earlier ++ message ∷ later) || has_open message.to earlier then Keep else Send) }
{}

/// What a tick does with an outstanding message, whatever is before and after it.
pub fn ticks()
    ensures due { (pace : AnyPace) (now : AnyMoment) (front back : List AnyOpen) (message : AnyOpen) (sent : AnySent) → message.sent ≡ Some sent
        → dues_of pace now (front ++ message ∷ back) ≡ dues pace now (front ++ message ∷ back) [] front
        ++ (message, outstanding_due now message sent) ∷ dues pace now (front ++ message ∷ back) (front ++ message ∷ []) back }
    ensures stays { (pace : AnyPace) (now : AnyMoment) (front back : List AnyOpen) (message : AnyOpen) (sent : AnySent) → message.sent ≡ Some sent
        → ticked pace now (front ++ message ∷ back) ≡ filter_map (after now) (dues pace now (front ++ message ∷ back) [] front)
        ++ (option_to_list (after now (message, outstanding_due now message sent))
        ++ filter_map (after now) (dues pace now (front ++ message ∷ back) (front ++ message ∷ []) back)) }
{}

/// A tick sends at most as many datagrams as there are open messages.
pub fn ticks_send_few()
    ensures { (pace : AnyPace) (now : AnyMoment) (all : List AnyOpen) → length (tick_sends pace now all) ≤ length all }
{}

/// A tick at which nothing is due leaves the open messages as they are.
pub fn ticks_at_rest()
    ensures sending { (pace : AnyPace) (now : AnyMoment) (all : List AnyOpen) → acts pace now all ≡ false → ticked pace now all ≡ all }
    ensures pace { (pace : AnyPace) (now : AnyMoment) (all : List AnyOpen) → acts pace now all ≡ false → tick_repeats pace now all ≡ [] }
{}

/// Ticks do with a message that went out, whatever is beside it at each of them, what its first going out and its timeout
/// say: it is retransmitted, and given up, on the first ticks at or after its moments, as long as nobody acknowledges it; so
/// it goes out five times at most.
pub fn retransmissions()
    ensures ticks { (message : AnyOpen) (sent : AnySent) (ticks : List (AnyMoment × AnyPace × List AnyOpen × List AnyOpen)) → message.sent ≡ Some sent
        → done_among ticks message ≡ done_over message sent (map (λ tick. tick.0) ticks) }
    ensures schedule { (message : AnyOpen) (went : AnyMoment) (ticks : List AnyMoment)
        → done_over message (record { at = went; repeats = 0 }) ticks ≡ schedule went message.timeout ticks }
    ensures most { (message : AnyOpen) (went : AnyMoment) (ticks : List AnyMoment)
        → length (filter is_sending (done_over message (record { at = went; repeats = 0 }) ticks)) ≤ 4 }
{}
