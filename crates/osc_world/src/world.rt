//! The world.
ghost use Rattle.std.specs.Prelude.{◌≡◌, ◌≢◌, ◌<◌, ◌↔◌, ◌++◌, ℕ, [], false, IfOk, IsTrue, List, OnErr, OnOk, length, map, option_map, position, reverse, slice_get};
ghost use Rattle.osc_model.specs.{Agree, HaveOwnPaths, alone as answers_alone, answered};
ghost use Rattle.osc_run.specs.{acceptances, AreYoung, history as history_of, questions, grants_of, IsReached, IsStart};
ghost use Rattle.osc_options.specs.{read_request};
ghost use Rattle.osc_run.specs.Premise.{Premise};
ghost use Rattle.osc_rounds.specs.{IsLawfulServer};
ghost use Rattle.osc_world.specs.Claims.{HasOneHistory, HasOwnAnswers, KeepsItsNonces};
ghost use Rattle.osc_world.specs.Lawful.{AreLawfulClients, AreLawfulProxies};
ghost use Rattle.osc_world.specs.Log.{settled, waiting};
ghost use Rattle.osc_world.specs.Loss.{GoesOverLoss};
ghost use Rattle.osc_world.specs.Nodes.{StandApart, skipped};
ghost use Rattle.osc_world.specs.Quiet.{AreWhole, Rounds, delivery};
ghost use Rattle.osc_world.specs.Ready.{AnswersWhatWasAsked, MakesWhatWasBegun};
ghost use Rattle.osc_world.specs.Worlds.{Happen, Happens, run_of, run_with};
ghost use Rattle.osc_world.specs.declared.event.Event.{Event as AnyEvent};

use crate::draws::Draws;
use crate::event::{Event, What};
use crate::isolation::alone;
use crate::laws::{a_lossy_round, an_asked_round, an_exchanged_round};
use crate::log::{EventLog, Record, SentDatagram};
use crate::nodes::{Nodes, Placed};
use osc_ccm::Ciphers;
use osc_client::Client;
use osc_model::{Draw, Entry, Moment, Reply};
use osc_proxy::Proxy;
use osc_run::laws::{contexts_are_young, one_history, own_answers, own_nonces};
use osc_run::{Acceptance, Minted, Noted, Question};
use osc_server::Server;
use osc_tree::Tree;
use std::alloc::{AllocError, Global};
use std::marker::Model;

/// A server, its clients and proxies, each datagram that was ever sent, and what is noted of each step. No two nodes are at one
/// address.
///
/// Whatever happens in it, there is one history, where what is assumed holds: that whatever opened was sealed before by the other end
/// of its context, or minted; that no drawn nonce came twice; and that no two grants share a secret. See [`World::premise_holds`].
pub struct World {
    minted: Vec<Minted>,
    first: Tree,
    nodes: Nodes,
    log: EventLog,
}

impl Drop for World {
    fn drop(self) {
        let World {
            minted: _,
            first: _,
            nodes: _,
            log: _,
        } = self;
    }
}

impl Model for World {
    ghost use Rattle.osc_run.specs.{IsReached};
    ghost use Rattle.osc_world.specs.Loss.{GoesOverLoss};
    ghost use Rattle.osc_world.specs.Nodes.{StandApart};
    ghost use Rattle.osc_world.specs.Quiet.{Rounds, delivery};
    ghost use Rattle.osc_world.specs.Ready.{AnswersWhatWasAsked, MakesWhatWasBegun};
    ghost use Rattle.osc_world.specs.Worlds.{State, run_of, world_of};
    ghost use Rattle.std.specs.Coded.{codes};
    ghost use Rattle.osc_model.specs.{coded_scope, coded_tree};

    ghost Value = { State };

    ghost coded = { Prim.hlevel (codes, coded_scope, coded_tree) };

    ghost view = { λ w. world_of w.minted.items w.first w.nodes w.log };

    ghost invariant = { λ w. IsReached (run_of (world_of w.minted.items w.first w.nodes w.log)) × StandApart w.nodes };
}

impl World {
    /// A world of these nodes, in which nothing happened yet; takes no memory.
    pub(crate) fn begun(alloc: Global, minted: Vec<Minted>, first: Tree, nodes: Nodes) -> World
        requires start { IsStart (run_with minted.items first nodes []) }
        requires apart { StandApart nodes }
        ensures begun { result ≡ record { minted = minted.items; first = first; nodes = nodes; sent = []; steps = []; records = [] } }
        ensures reached { IsReached (run_of result) }
        ensures apart { StandApart result.nodes }
    {
        World {
            minted,
            first,
            nodes,
            log: EventLog::new(alloc),
        }
    }

    /// One event. Without memory an `AllocError`; then nothing has changed.
    pub fn step<A: Ciphers>(&mut self, alloc: Global, event: &Event) -> Result<(), AllocError>
        ensures happens { OnOk result (Happens A.is_sealing A.TAG self.old event.now self.new) }
        ensures reached { IsReached (run_of self.new) }
        ensures apart { StandApart self.new.nodes }
        ensures one_history { HasOneHistory self.new }
        ensures young { AreYoung (run_of self.new) }
        ensures own_nonces { KeepsItsNonces self.new }
        ensures own_answers { HasOwnAnswers self.new }
        ensures err { OnErr result (self.new ≡ self.old) }
    {
        one_history();
        contexts_are_young();
        own_nonces();
        own_answers();
        let done = self.happens::<A>(alloc, event);
        // The clauses of runs are the world's invariant after it.
        let _ = &self.minted;
        done
    }

    /// The event's step, and what is kept of it.
    fn happens<A: Ciphers>(&mut self, alloc: Global, event: &Event) -> Result<(), AllocError>
        ensures happens { OnOk result (Happens A.is_sealing A.TAG self.old event.now self.new) }
        ensures err { OnErr result (self.new ≡ self.old) }
    {
        let whose = self.nodes.whose(self.log.sent(), &event.what);
        self.log.reserve(self.nodes.most_sent::<A>(whose)?)?;
        let taken = self.nodes.take::<A>(alloc, whose, event, self.log.sent())?;
        self.log.keep(&event.what, taken);
        Ok(())
    }

    /// Events in order, up to the first for which memory runs out; those before it are kept.
    ///
    /// Where what is assumed holds ([`World::premise_holds`]), there is one history after them: no two entries share context and
    /// number, each was asked by its client and is answered by its token's scope and the tree, their effects give the server's tree,
    /// and each reply that a client accepted is that of its request.
    ///
    /// Where the server's contexts have a greatest age, each entry came less than that after the post that made its context, whatever else
    /// holds.
    ///
    /// Where, besides, no two grants name a common path, each client's entries are answered as if they alone followed the first
    /// resources, up to the first that is for lack of memory or of room ([`World::alone`]).
    ///
    /// Where the first event is a client's request, straight to the server, in a world that is ready for it, and the others are ticks of both
    /// and deliveries of what was sent since, in whatever order and number, it is served once, and answered where a copy and a reply
    /// come in time; see [`laws::a_lossy_round`](crate::laws::a_lossy_round).
    pub fn run<A: Ciphers>(&mut self, alloc: Global, events: &[Event]) -> Result<(), AllocError>
        ensures happen { (done rest : List AnyEvent) × (events.now ≡ done ++ rest) × Happen A.is_sealing A.TAG self.old done self.new
            × OnOk result (rest ≡ []) × OnErr result (rest ≢ []) }
        ensures over_loss { OnOk result (GoesOverLoss A.TAG self.old events.now self.new) }
        ensures reached { IsReached (run_of self.new) }
        ensures apart { StandApart self.new.nodes }
        ensures one_history { HasOneHistory self.new }
        ensures young { AreYoung (run_of self.new) }
        ensures own_nonces { KeepsItsNonces self.new }
        ensures own_answers { HasOwnAnswers self.new }
    {
        one_history();
        contexts_are_young();
        own_nonces();
        own_answers();
        a_lossy_round::<A>();
        self.is_lawful();
        let done = self.happen::<A>(alloc, events);
        // The clauses of runs are the world's invariant after it.
        let _ = &self.minted;
        done
    }

    fn happen<A: Ciphers>(&mut self, alloc: Global, events: &[Event]) -> Result<(), AllocError>
        ensures { (done rest : List AnyEvent) × (events.now ≡ done ++ rest) × Happen A.is_sealing A.TAG self.old done self.new
            × OnOk result (rest ≡ []) × OnErr result (rest ≢ []) }
    {
        for event in events {
            self.happens::<A>(alloc, event)?;
        }
        Ok(())
    }

    /// A quiet round: each datagram that was neither delivered nor dropped is delivered, in order of sending, until none is left, or
    /// `limit` were. Whether none is left; an `AllocError` at the first for whose delivery memory runs out: the deliveries before it are kept,
    /// and it waits.
    ///
    /// After an exchange or a request, in a world that was ready for it, two deliveries are the whole round, or six through a proxy: the
    /// exchange makes a context of one name at both ends, with the token's scope; and the request is served once, by what the
    /// machine makes of it, or by 5.00 where the server lacks memory for that, and what it is answered is what the client learns.
    /// What is assumed of a run goes on over such a round: over a request always, and over an exchange where its token is one that the
    /// world began with and the nonces that were drawn are fresh.
    pub fn quiet<A: Ciphers, D: Draws>(
        &mut self,
        alloc: Global,
        now: Moment,
        draws: &D,
        limit: usize,
    ) -> Result<bool, AllocError>
        ensures rounds { IfOk result (λ quiet. Rounds (Happens A.is_sealing A.TAG) (record { drawn = D.drawn draws.now; at = now }) limit self.old quiet self.new) }
        ensures stopped { OnErr result ((some : ℕ) × (some < limit)
            × Rounds (Happens A.is_sealing A.TAG) (record { drawn = D.drawn draws.now; at = now }) some self.old false self.new) }
        ensures begun { IfOk result (λ quiet. MakesWhatWasBegun A.is_sealing A.TAG (record { drawn = D.drawn draws.now; at = now }) limit self.old
            (record { is_quiet = quiet; world = self.new })) }
        ensures asked { IfOk result (λ quiet. AnswersWhatWasAsked A.is_sealing A.TAG (record { drawn = D.drawn draws.now; at = now }) limit self.old
            (record { is_quiet = quiet; world = self.new })) }
        ensures reached { IsReached (run_of self.new) }
        ensures apart { StandApart self.new.nodes }
        ensures one_history { HasOneHistory self.new }
        ensures young { AreYoung (run_of self.new) }
        ensures own_nonces { KeepsItsNonces self.new }
        ensures own_answers { HasOwnAnswers self.new }
    {
        one_history();
        contexts_are_young();
        own_nonces();
        own_answers();
        an_exchanged_round::<A>();
        an_asked_round::<A>();
        self.is_lawful();
        let done = self.rounds::<A, D>(alloc, now, draws, limit);
        // The clauses of runs are the world's invariant after it.
        let _ = &self.minted;
        done
    }

    // For proofs: what is true of each world. Looks at each client and proxy, and changes nothing.
    fn is_lawful(&self)
        ensures server { IsLawfulServer self.now.nodes.server }
        ensures clients { AreLawfulClients self.now.nodes.clients }
        ensures proxies { AreLawfulProxies self.now.nodes.proxies }
        ensures apart { StandApart self.now.nodes }
    {
        self.nodes.has_a_lawful_server();
        self.nodes.has_lawful_clients();
        self.nodes.has_lawful_proxies();
    }

    fn rounds<A: Ciphers, D: Draws>(
        &mut self,
        alloc: Global,
        now: Moment,
        draws: &D,
        limit: usize,
    ) -> Result<bool, AllocError>
        ensures rounds { IfOk result (λ quiet. Rounds (Happens A.is_sealing A.TAG) (record { drawn = D.drawn draws.now; at = now }) limit self.old quiet self.new) }
        ensures stopped { OnErr result ((some : ℕ) × (some < limit)
            × Rounds (Happens A.is_sealing A.TAG) (record { drawn = D.drawn draws.now; at = now }) some self.old false self.new) }
        ensures whole { OnOk result (AreWhole (D.drawn draws.now) self.old self.new) }
    {
        for _ in 0..limit {
            let Some(datagram) = self.next_waiting() else {
                return Ok(true);
            };
            let draw = draws.draw(self.log.records().len());
            is_whole(&draw);
            self.delivers::<A>(alloc, now, draw, datagram)?;
        }
        Ok(self.next_waiting().is_none())
    }

    /// The datagram of this number is delivered.
    fn delivers<A: Ciphers>(
        &mut self,
        alloc: Global,
        now: Moment,
        draw: Draw,
        datagram: usize,
    ) -> Result<(), AllocError>
        ensures happens { OnOk result (Happens A.is_sealing A.TAG self.old (delivery now draw datagram) self.new) }
        ensures err { OnErr result (self.new ≡ self.old) }
    {
        let event = Event {
            moment: now,
            draw,
            what: What::Deliver { datagram },
        };
        self.happens::<A>(alloc, &event)
    }

    /// The requests that were served, the oldest first. Without memory there is no list.
    pub fn history(&self, alloc: Global) -> Result<Vec<&Entry>, AllocError>
        ensures history { IfOk result (λ all. map (λ entry. entry.now) all.items ≡ history_of self.now.steps) }
        ensures reached { IsReached (run_of self.now) }
        ensures one_history { HasOneHistory self.now }
        ensures young { AreYoung (run_of self.now) }
        ensures own_answers { HasOwnAnswers self.now }
    {
        one_history();
        contexts_are_young();
        own_answers();
        self.log.notes().history(alloc)
    }

    /// What a client's entries are answered where they alone follow the first resources, each with its number, in the history's
    /// order. Without memory there is no list.
    ///
    /// Where what is assumed holds and no two grants name a common path, the history has the same answers, up to the first that is for
    /// lack of memory or of room.
    pub fn alone(&self, alloc: Global, client: usize) -> Result<Vec<(u64, Reply)>, AllocError>
        ensures alone { IfOk result (λ answers. answers.items
            ≡ answers_alone read_request self.now.nodes.server.desk.rules.revoked (grants_of self.now.minted) client self.now.first (history_of self.now.steps)) }
        ensures isolated { IfOk result (λ answers. Premise self.now.minted self.now.steps → HaveOwnPaths (grants_of self.now.minted)
            → Agree (answered (grants_of self.now.minted) client (history_of self.now.steps)) answers.items) }
    {
        own_answers();
        let entries = self.history(alloc)?;
        // The clauses of runs are the world's invariant after it.
        let _ = &self.minted;
        let root = self.nodes.server().desk().revoked();
        alone(alloc, &self.minted, client, root, &self.first, &entries)
    }

    /// The requests that clients sealed, or their holders in a lie, the oldest first. Without memory there is no list.
    pub fn asked(&self, alloc: Global) -> Result<Vec<Question<'_>>, AllocError>
        ensures asked { IfOk result (λ all. all.items ≡ questions self.now.steps) }
        ensures reached { IsReached (run_of self.now) }
        ensures one_history { HasOneHistory self.now }
        ensures own_nonces { KeepsItsNonces self.now }
    {
        one_history();
        own_nonces();
        self.log.notes().asked(alloc)
    }

    /// The replies that clients accepted, the oldest first. Without memory there is no list.
    pub fn accepted(&self, alloc: Global) -> Result<Vec<Acceptance<'_>>, AllocError>
        ensures accepted { IfOk result (λ all. all.items ≡ acceptances self.now.steps) }
        ensures reached { IsReached (run_of self.now) }
        ensures one_history { HasOneHistory self.now }
    {
        one_history();
        self.log.notes().accepted(alloc)
    }

    /// Whether what is assumed holds of all that happened: whatever opened was sealed before by the other end of its context, or
    /// minted; no drawn nonce came twice; and no two grants share a secret. It takes memory for a set of the drawn nonces, which it
    /// gives back, and is as exact without.
    ///
    /// Its time mostly grows with the steps: an opening is looked for from the newest step before it on, and was mostly sealed a step or two
    /// before. At worst it grows with the square of the steps: where openings come long after their seals, or where memory for the set is
    /// refused.
    pub fn premise_holds(&self) -> bool
        ensures { IsTrue result ↔ Premise self.now.minted self.now.steps }
    {
        self.log.notes().premise_holds(&self.minted)
    }

    /// The server's resources.
    pub fn tree(&self) -> &Tree
        ensures tree { result.now ≡ self.now.nodes.server.tree }
        ensures reached { IsReached (run_of self.now) }
        ensures one_history { HasOneHistory self.now }
    {
        one_history();
        // The clauses of runs are the world's invariant after it.
        let _ = &self.minted;
        self.nodes.server().tree()
    }

    /// The server.
    pub fn server(&self) -> &Server
        ensures server { result.now ≡ self.now.nodes.server }
        ensures apart { StandApart self.now.nodes }
    {
        self.nodes.server()
    }

    /// The client of this number, and where it is, if there is one.
    pub fn client(&self, number: usize) -> Option<&Placed<Client>>
        ensures client { option_map (λ placed. placed.now) result ≡ slice_get self.now.nodes.clients number }
        ensures apart { StandApart self.now.nodes }
    {
        self.nodes.client(number)
    }

    /// The proxy of this number, and where it is, if there is one.
    pub fn proxy(&self, number: usize) -> Option<&Placed<Proxy>>
        ensures proxy { option_map (λ placed. placed.now) result ≡ slice_get self.now.nodes.proxies number }
        ensures apart { StandApart self.now.nodes }
    {
        self.nodes.proxy(number)
    }

    /// The resources that the world began with.
    pub fn first_tree(&self) -> &Tree
        ensures tree { result.now ≡ self.now.first }
        ensures reached { IsReached (run_of self.now) }
        ensures one_history { HasOneHistory self.now }
    {
        one_history();
        &self.first
    }

    /// The grants, each with the text of its token, in the order in which their holders were enrolled.
    pub fn minted(&self) -> &[Minted]
        ensures { result.now ≡ self.now.minted }
    {
        &self.minted
    }

    /// Each datagram that was ever sent, the first of them first.
    pub fn sent(&self) -> &[SentDatagram]
        ensures { result.now ≡ self.now.sent }
    {
        self.log.sent()
    }

    /// What each step noted, the oldest first: a run, of which there is one history and whose seals keep their nonces, where what is
    /// assumed holds.
    pub fn steps(&self) -> &[Noted]
        ensures steps { reverse result.now ≡ self.now.steps }
        ensures reached { IsReached (run_of self.now) }
        ensures one_history { HasOneHistory self.now }
        ensures own_nonces { KeepsItsNonces self.now }
        ensures own_answers { HasOwnAnswers self.now }
    {
        one_history();
        own_nonces();
        own_answers();
        self.log.notes().steps()
    }

    /// The outcome of each event, the oldest first.
    pub fn records(&self) -> &[Record]
        ensures { result.now ≡ self.now.records }
    {
        self.log.records()
    }

    /// The first datagram that was neither delivered nor dropped, by its number. The work is the same however many were sent.
    pub fn next_waiting(&self) -> Option<usize>
        ensures { result ≡ position (λ datagram. datagram.waits) self.now.sent }
    {
        self.log.next_waiting()
    }

    /// The numbers of the datagrams that were neither delivered nor dropped, in order of sending. Without memory there is no list.
    pub fn waiting(&self, alloc: Global) -> Result<Vec<usize>, AllocError>
        ensures { IfOk result (λ all. all.items ≡ waiting self.now.sent) }
    {
        self.log.waiting(alloc)
    }

    /// The datagram of this number waits no more: a quiet round leaves it out. One that was never sent changes nothing.
    pub fn drop_datagram(&mut self, number: usize)
        ensures { self.new ≡ record self.old { sent = settled number self.old.sent } }
    {
        self.log.settle(number);
    }

    /// Raises the sender sequence number that a client takes next; a lower one changes nothing, and so does a client that isn't there
    /// or has no context.
    pub fn skip(&mut self, client: usize, number: u64)
        ensures skipped { self.new ≡ record self.old { nodes = skipped client number self.old.nodes } }
        ensures reached { IsReached (run_of self.new) }
        ensures apart { StandApart self.new.nodes }
        ensures one_history { HasOneHistory self.new }
        ensures young { AreYoung (run_of self.new) }
        ensures own_nonces { KeepsItsNonces self.new }
        ensures own_answers { HasOwnAnswers self.new }
    {
        one_history();
        contexts_are_young();
        own_nonces();
        own_answers();
        self.skips(client, number);
        // The clauses of runs are the world's invariant after it.
        let _ = &self.minted;
    }

    fn skips(&mut self, client: usize, number: u64)
        ensures { self.new ≡ record self.old { nodes = skipped client number self.old.nodes } }
    {
        self.nodes.skip(client, number);
    }
}

/// For proofs: how many bytes are drawn. Does nothing.
fn is_whole(draw: &Draw)
    ensures { length draw.now.0 ≡ 32 }
{
    let _ = &draw.0;
}
