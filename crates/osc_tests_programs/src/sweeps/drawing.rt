//! Scripts that are drawn.

use std::alloc::{AllocError, Global};

/// What is drawn, number by number: a linear congruential generator, whose low bits are left out.
#[derive(Drop)]
pub(crate) struct Draws {
    state: u64,
}

impl Draws {
    /// From this seed.
    pub fn from_seed(seed: u64) -> Draws {
        Draws { state: seed }
    }

    /// A number below this one; 0 where that is 0.
    fn below(&mut self, bound: usize) -> usize {
        self.state = self
            .state
            .wrapping_mul(6_364_136_223_846_793_005)
            .wrapping_add(1_442_695_040_888_963_407);
        (self.state >> 33) as usize % bound.max(1)
    }

    /// One of these words.
    fn one_of(&mut self, words: &[&'static [u8]]) -> &'static [u8] {
        let number = self.below(words.len());
        match words.get(number) {
            Some(word) => word,
            None => b"",
        }
    }
}

/// A server, two proxies and four clients: two straight ones, one by each proxy.
const SET_UP: &[u8] =
    b"put /e none 65\nopen /e\ngrant c1 /log:GET+POST+PUT+DELETE\ngrant c2 /log:GET+POST,/a:GET+PUT+SUB\n\
grant c3 /log:GET+PUT exp=20\ngrant c4 /a/b:GET+POST+PUT+DELETE nbf=2\nvia c3 p1\nvia c4 p2\n";

/// Lines of events. After a `?` is what is drawn.
const EVENTS: [&[u8]; 24] = [
    b"exchange ?c\n",
    b"exchange ?c\n",
    b"exchange ?c\n",
    b"ask ?c ?m ?p ?b\n",
    b"ask ?c ?m ?p ?b\n",
    b"ask ?c ?m ?p ?b\n",
    b"ask ?c ?m ?p ?b\n",
    b"ask ?c POST /log ?b\n",
    b"quiet\n",
    b"quiet\n",
    b"quiet\n",
    b"quiet\n",
    b"deliver ?k\n",
    b"deliver ?k\n",
    b"alter ?k ?o ?h\n",
    b"alter ?k ?o ?h ?o ?h\n",
    b"graft ?k ?k\n",
    b"lie ?c ?o ?m ?p ?b\n",
    b"tick ?n\n",
    b"tick ?n\n",
    b"restart ?n\n",
    b"inject x s 4001?h?hb165\n",
    b"inject ?n ?n 50?h?h?h?h?h?h?h?h\n",
    b"inject x ?f 4001?h?h31738165d40f636f6170\n",
];

/// What is between events, now and then.
const BETWEEN: [&[u8]; 4] = [b"at ?t\n", b"at ?t\n", b"drop ?k\n", b"skip ?c ?o\n"];

const CLIENTS: [&[u8]; 4] = [b"c1", b"c2", b"c3", b"c4"];

const NODES: [&[u8]; 7] = [b"s", b"p1", b"p2", b"c1", b"c2", b"c3", b"c4"];

const PROXIES: [&[u8]; 2] = [b"p1", b"p2"];

const METHODS: [&[u8]; 4] = [b"GET", b"POST", b"PUT", b"DELETE"];

const PATHS: [&[u8]; 5] = [b"/log", b"/a", b"/a/b", b"/b", b"/e"];

const PAYLOADS: [&[u8]; 6] = [b"-", b"61", b"62", b"63*40", b"64*512", b"65*513"];

/// A script that is drawn.
#[derive(Drop)]
pub(crate) struct Drawing {
    script: Vec<u8>,
    /// How many events it has.
    events: usize,
    /// The moment of the next event.
    moment: usize,
}

/// A number's digits.
fn push_number(alloc: Global, script: &mut Vec<u8>, number: usize) -> Result<(), AllocError> {
    let digits = format!(in alloc; "{number}")?;
    Ok(script.extend_from_slice(digits.as_bytes())?)
}

/// A byte in hexadecimal.
fn push_byte(script: &mut Vec<u8>, draws: &mut Draws) -> Result<(), AllocError> {
    for _ in 0..2 {
        script.push(b"0123456789abcdef"[draws.below(16) % 16])?;
    }
    Ok(())
}

impl Drawing {
    /// The nodes, and no event yet.
    fn begun(alloc: Global) -> Result<Drawing, AllocError> {
        Ok(Drawing {
            script: Vec::from_slice(alloc, SET_UP)?,
            events: 0,
            moment: 0,
        })
    }

    /// What is drawn for this letter.
    fn push_drawn(
        &mut self,
        alloc: Global,
        draws: &mut Draws,
        letter: u8,
    ) -> Result<(), AllocError> {
        match letter {
            b'k' => self.push_datagram(alloc, draws),
            b'o' => push_number(alloc, &mut self.script, draws.below(48)),
            b't' => self.push_moment(alloc, draws),
            b'h' => push_byte(&mut self.script, draws),
            _ => self.push_word(draws, letter),
        }
    }

    fn push_word(&mut self, draws: &mut Draws, letter: u8) -> Result<(), AllocError> {
        let word = match letter {
            b'c' => draws.one_of(&CLIENTS),
            b'n' => draws.one_of(&NODES),
            b'f' => draws.one_of(&PROXIES),
            b'm' => draws.one_of(&METHODS),
            b'p' => draws.one_of(&PATHS),
            _ => draws.one_of(&PAYLOADS),
        };
        Ok(self.script.extend_from_slice(word)?)
    }

    /// The number of a datagram that was sent, most often.
    fn push_datagram(&mut self, alloc: Global, draws: &mut Draws) -> Result<(), AllocError> {
        let number = draws.below(self.events.saturating_add(4));
        push_number(alloc, &mut self.script, number)
    }

    /// A moment up to three seconds later.
    fn push_moment(&mut self, alloc: Global, draws: &mut Draws) -> Result<(), AllocError> {
        self.moment = self.moment.saturating_add(draws.below(3_000));
        push_number(alloc, &mut self.script, self.moment)
    }

    /// The line, with what is drawn for it.
    fn push_line(
        &mut self,
        alloc: Global,
        draws: &mut Draws,
        line: &[u8],
    ) -> Result<(), AllocError> {
        let mut is_drawn = false;
        for byte in line {
            if is_drawn {
                self.push_drawn(alloc, draws, *byte)?;
            } else if *byte != b'?' {
                self.script.push(*byte)?;
            }
            is_drawn = !is_drawn && *byte == b'?';
        }
        Ok(())
    }

    /// One event, and at times what is before it.
    fn push_event(&mut self, alloc: Global, draws: &mut Draws) -> Result<(), AllocError> {
        if draws.below(6) == 0 {
            let line = draws.one_of(&BETWEEN);
            self.push_line(alloc, draws, line)?;
        }
        let line = draws.one_of(&EVENTS);
        self.events = self.events.saturating_add(1);
        self.push_line(alloc, draws, line)
    }
}

/// A script of this number of lines of events.
pub(crate) fn script(
    alloc: Global,
    draws: &mut Draws,
    events: usize,
) -> Result<Vec<u8>, AllocError> {
    let mut drawing = Drawing::begun(alloc)?;
    for _ in 0..events {
        drawing.push_event(alloc, draws)?;
    }
    let Drawing { script, .. } = drawing;
    Ok(script)
}
