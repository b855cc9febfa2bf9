//! The lines by which a node tells what its turns did, as text and as JSON.
ghost use Rattle.osc_log.specs.declared.held.Held.TheVariants as AnyHeld;

use crate::broken::{BrokenWriter, FullPipe, Narrow};
use osc_log::{AtOnce, Form, Held, Lines, Log, Silent, TellsHeld, Turn};
use osc_model::{
    Algorithm, Bytes, Code, ContextName, Datagram, Datagrams, Entry, Moment, Peer, RefusedRequest,
    Reply, SharedBytes, SharedName, Step, StepNotes,
};
use osc_options::request_in;
use std::alloc::{AllocError, Global};
use std::io::{ErrorKind, Write};
use std::test::Fail;

const NOW: u64 = 1700000000123;

/// The answers that a step sends to 192.0.2.7:40000, one for each of these.
fn answers(alloc: Global, bytes: &[&[u8]]) -> Result<Datagrams, AllocError> {
    let mut out = Datagrams::new(alloc);
    for datagram in bytes {
        out.push(Datagram {
            to: Peer::v4([192, 0, 2, 7], 40000),
            bytes: Bytes::from_slice(alloc, datagram)?,
        })?;
    }
    Ok(out)
}

/// A step that sends these answers, and neither serves nor refuses.
fn sending(alloc: Global, bytes: &[&[u8]]) -> Result<Step, AllocError> {
    Ok(Step::sending(answers(alloc, bytes)?))
}

/// A step that answers 4.01 outside.
fn refusing(alloc: Global, code: Code, reason: Option<u8>) -> Result<Step, AllocError> {
    let out = answers(alloc, &[&[0x60, 0x81, 0, 1]])?;
    Ok(Step::refusing(RefusedRequest { code, reason }, out))
}

/// A step that serves a request of this text, and answers 2.04 outside and 2.05 inside.
fn serving(alloc: Global, plaintext: &[u8]) -> Result<Step, AllocError> {
    let entry = Entry {
        context: SharedName::new(alloc, name(alloc)?)?,
        number: 5,
        plaintext: Bytes::from_slice(alloc, plaintext)?,
        request: request_in(alloc, plaintext)?,
        moment: moment(),
        reply: Reply {
            payload: Bytes::from_slice(alloc, b"secret")?,
            ..Reply::bare(alloc, Code::CONTENT)
        },
    };
    let out = answers(alloc, &[&[0x60, 0x44, 0, 1]])?;
    Ok(Step {
        out,
        notes: StepNotes::quiet().with_entry(entry),
    })
}

fn name(alloc: Global) -> Result<ContextName, AllocError> {
    Ok(ContextName {
        secret: Bytes::from_slice(alloc, b"master")?,
        salt: Bytes::new(alloc),
        id_context: None,
        client_id: Bytes::new(alloc),
        server_id: Bytes::new(alloc),
        alg: Algorithm::EightByteTag,
    })
}

fn moment() -> Moment {
    Moment::new(NOW).unwrap_or(Moment::START)
}

/// A server with three contexts and two resources.
struct Shelf;

impl TellsHeld for Shelf {
    ghost held = { λ _. AnyHeld.Server 3 2 };

    fn held(&self) -> Held {
        Held::Server {
            contexts: 3,
            resources: 2,
        }
    }
}

/// Tells of a turn at this moment, in which a datagram came and the node did this.
fn tell<W: Write + Drop>(alloc: Global, lines: &mut Lines<W>, now: Moment, step: &Step) {
    let turn = Turn {
        now,
        received: true,
        step,
    };
    lines.turn(alloc, &turn, &Shelf);
}

/// Whether this is told of the step alone.
fn is_told(alloc: Global, form: Form, step: Step, text: &[u8]) -> bool {
    let mut lines = Lines::new(form, 3600, Vec::new(alloc));
    tell(alloc, &mut lines, moment(), &step);
    lines.into_writer().as_slice() == text
}

/// Whether what is told of the step is this, after the moment and the address.
fn tells(alloc: Global, step: Step, what: &str) -> Result<bool, AllocError> {
    let wanted = format!(in alloc; "{NOW} 192.0.2.7:40000 {what}\n")?;
    Ok(is_told(alloc, Form::Text, step, wanted.as_bytes()))
}

/// Refusals, by code and number.
const REFUSED: [(Code, Option<u8>, &str); 16] = [
    (
        Code::BAD_REQUEST,
        Some(3),
        "refused 4.00: what it seals is not genuine (3)",
    ),
    (
        Code::BAD_OPTION,
        Some(21),
        "refused 4.02: its protection is malformed (21)",
    ),
    (
        Code::UNAUTHORIZED,
        Some(22),
        "refused 4.01: it names no live security context (22)",
    ),
    (
        Code::UNAUTHORIZED,
        Some(23),
        "refused 4.01: it came before, or is too old (23)",
    ),
    (
        Code::BAD_REQUEST,
        Some(24),
        "refused 4.00: the scope of its token can not be read (24)",
    ),
    (
        Code::UNAUTHORIZED,
        Some(25),
        "refused 4.01: its token is not genuine (25)",
    ),
    (
        Code::UNAUTHORIZED,
        Some(26),
        "refused 4.01: its token has expired (26)",
    ),
    (
        Code::FORBIDDEN,
        Some(28),
        "refused 4.03: its token is for another audience (28)",
    ),
    (
        Code::BAD_REQUEST,
        Some(30),
        "refused 4.00: a field is missing, or of another type or length (30)",
    ),
    (
        Code::INTERNAL_SERVER_ERROR,
        Some(31),
        "refused 5.00: too many tokens have a security context (31)",
    ),
    (
        Code::BAD_REQUEST,
        Some(99),
        "refused 4.00: for another reason (99)",
    ),
    (
        Code::UNAUTHORIZED,
        None,
        "refused 4.01: it is not protected",
    ),
    (
        Code::METHOD_NOT_ALLOWED,
        None,
        "refused 4.05: its method is none of this path",
    ),
    (
        Code::SERVICE_UNAVAILABLE,
        None,
        "refused 5.03: too many exchanges are open",
    ),
    (
        Code::PROXYING_NOT_SUPPORTED,
        None,
        "refused 5.05: nothing is forwarded there",
    ),
    (Code::CONTENT, None, "refused 2.05: for another reason"),
];

#[test]
fn what_is_refused(rt: HostRuntime) -> Result<(), Fail> {
    for &(code, reason, what) in &REFUSED {
        assert!(rt;
            tells(rt.alloc(), refusing(rt.alloc(), code, reason)?, what)?,
            "{what}"
        );
    }
    Ok(())
}

/// Texts that were opened, with the code of the request and its Uri-Path.
const SERVED: [(&[u8], &str); 7] = [
    (b"\x01\xb3log", "served GET /log: 2.05"),
    (b"\x02\xb3log\xffhidden", "served POST /log: 2.05"),
    (b"\x03\xb1a\x01b", "served PUT /a/b: 2.05"),
    (b"\x04\xb1a", "served DELETE /a: 2.05"),
    // What would start a line of its own, or move a cursor, doesn't.
    (b"\x01\xb4a\n\x1b\x7f", "served GET /a???: 2.05"),
    (b"\x01", "served GET -: 2.05"),
    (b"", "served what is no request: 2.05"),
];

#[test]
fn what_is_served(rt: HostRuntime) -> Result<(), Fail> {
    for &(plaintext, what) in &SERVED {
        assert!(rt;
            tells(rt.alloc(), serving(rt.alloc(), plaintext)?, what)?,
            "{what}"
        );
    }
    Ok(())
}

// Of a step that neither serves nor refuses, each datagram is told by its code.
#[test]
fn what_is_sent(rt: HostRuntime) -> Result<(), Fail> {
    let alloc = rt.alloc();
    let one = sending(alloc, &[&[0x60, 0x45, 0, 1]])?;
    assert!(rt; tells(alloc, one, "sent 2.05")?);
    let two = sending(alloc, &[&[0x60, 0, 0, 1], &[0x40, 2, 0, 2]])?;
    assert!(rt;
        is_told(
            alloc,
            Form::Text,
            two,
            b"1700000000123 192.0.2.7:40000 sent 0.00\n1700000000123 192.0.2.7:40000 sent 0.02\n"
        )
    );
    let none = sending(alloc, &[])?;
    assert!(rt; is_told(alloc, Form::Text, none, b""));
    Ok(())
}

// Lines go after what the writer has.
#[test]
fn lines_are_written(rt: HostRuntime) -> Result<(), Fail> {
    let alloc = rt.alloc();
    let step = serving(alloc, b"\x01\xb3log")?;
    let mut lines = Lines::new(Form::Text, 3600, Vec::from_slice(alloc, b"> ")?);
    tell(alloc, &mut lines, moment(), &step);
    lines.lost(moment());
    assert_eq!(rt;
        lines.into_writer().as_slice(),
        b"> 1700000000123 192.0.2.7:40000 served GET /log: 2.05\nout of memory: what came is lost\n".as_slice()
    );
    Ok(())
}

// This number of milliseconds after the first moment.
fn later(ms: u64) -> Moment {
    Moment::new(NOW.wrapping_add(ms)).unwrap_or(Moment::START)
}

// Of one second 20 refusals are told, and all that is served. The next second tells first how many were left out.
#[test]
fn many_refusals_are_counted(rt: HostRuntime) -> Result<(), Fail> {
    let alloc = rt.alloc();
    let refused = refusing(alloc, Code::UNAUTHORIZED, None)?;
    let served = serving(alloc, b"\x01\xb3log")?;
    let mut lines = Lines::new(Form::Text, 3600, Vec::new(alloc));
    for ms in 0..23 {
        tell(alloc, &mut lines, later(ms), &refused);
    }
    tell(alloc, &mut lines, later(876), &served);
    let written = lines.into_writer();
    let mut told: Vec<&[u8]> = written.split(|byte| *byte == b'\n').collect(alloc)?;
    assert_eq!(rt; told.len(), 22);
    let _end = told.pop();
    assert_eq!(rt;
        told.pop(),
        Some(b"1700000000999 192.0.2.7:40000 served GET /log: 2.05".as_slice())
    );
    assert_eq!(rt;
        told.pop(),
        Some(b"1700000000142 192.0.2.7:40000 refused 4.01: it is not protected".as_slice())
    );
    Ok(())
}

#[test]
fn a_new_second_tells_what_was_left_out(rt: HostRuntime) -> Result<(), Fail> {
    let alloc = rt.alloc();
    let refused = refusing(alloc, Code::UNAUTHORIZED, None)?;
    let none = Step::sending(Datagrams::new(alloc));
    let mut lines = Lines::new(Form::Text, 3600, Vec::new(alloc));
    for ms in 0..23 {
        tell(alloc, &mut lines, later(ms), &refused);
    }
    // A step that sends nothing has no line, and tells of nothing.
    tell(alloc, &mut lines, later(1000), &none);
    tell(alloc, &mut lines, later(2000), &refused);
    tell(alloc, &mut lines, later(4000), &refused);
    let written = lines.into_writer();
    let told = written
        .split(|byte| *byte == b'\n')
        .collect::<Vec<&[u8]>>(alloc)?;
    assert_eq!(rt; told.len(), 24);
    assert_eq!(rt;
        told[20],
        b"1700000002123 left out 3 refusals without a context".as_slice()
    );
    assert_eq!(rt;
        told[21],
        b"1700000002123 192.0.2.7:40000 refused 4.01: it is not protected".as_slice()
    );
    assert_eq!(rt;
        told[22],
        b"1700000004123 192.0.2.7:40000 refused 4.01: it is not protected".as_slice()
    );
    Ok(())
}

// What can't be written is no failure, and what comes later is tried again.
#[test]
fn a_broken_output_ends_nothing(rt: HostRuntime) -> Result<(), Fail> {
    let alloc = rt.alloc();
    let step = serving(alloc, b"\x01\xb3log")?;
    let mut lines = Lines::new(Form::Text, 3600, BrokenWriter { writes: 1 });
    for _ in 0..3 {
        tell(alloc, &mut lines, moment(), &step);
    }
    assert_eq!(rt; lines.dropped(), 2);
    assert_eq!(rt; lines.into_writer().writes, 0);
    let mut silent = Silent;
    let turn = Turn {
        now: moment(),
        received: false,
        step: &step,
    };
    silent.turn(alloc, &turn, &Shelf);
    silent.lost(moment());
    Ok(())
}

// Lines that couldn't be written are counted, and told of once something can be.
#[test]
fn dropped_lines_are_told_of(rt: HostRuntime) -> Result<(), Fail> {
    let alloc = rt.alloc();
    let step = serving(alloc, b"\x01\xb3log")?;
    let pipe = FullPipe {
        refuses: 3,
        taken: Vec::new(alloc),
        fd: 2,
    };
    let mut lines = Lines::new(Form::Text, 3600, pipe);
    // The second write that is refused is that of a notice.
    tell(alloc, &mut lines, moment(), &step);
    lines.lost(moment());
    tell(
        alloc,
        &mut lines,
        moment(),
        &Step::sending(Datagrams::new(alloc)),
    );
    assert_eq!(rt; lines.dropped(), 2);
    tell(alloc, &mut lines, moment(), &step);
    lines.lost(moment());
    assert_eq!(rt;
        lines.into_writer().taken.as_slice(),
        b"2 lines could not be written\n1700000000123 192.0.2.7:40000 served GET /log: 2.05\nout of memory: what came is lost\n".as_slice()
    );
    Ok(())
}

// A line that is cut counts, and so do those after it, but not those before.
#[test]
fn a_cut_line_counts(rt: HostRuntime) -> Result<(), Fail> {
    let alloc = rt.alloc();
    let content: &[u8] = &[0x60, 0x45, 0, 1];
    let step = sending(alloc, &[content, content, content])?;
    let narrow = Narrow {
        room: 60,
        taken: Vec::new(alloc),
    };
    let mut lines = Lines::new(Form::Text, 3600, narrow);
    tell(alloc, &mut lines, moment(), &step);
    assert_eq!(rt; lines.dropped(), 2);
    assert_eq!(rt;
        lines.into_writer().taken.as_slice(),
        b"1700000000123 192.0.2.7:40000 sent 2.05\n1700000000123 192.0.".as_slice()
    );
    Ok(())
}

// ---- objects

/// Whether the only line that is told of the step is this object.
fn is_object(alloc: Global, step: Step, object: &str) -> Result<bool, AllocError> {
    let wanted = format!(in alloc; "{object}\n")?;
    Ok(is_told(alloc, Form::Json, step, wanted.as_bytes()))
}

#[test]
fn each_line_is_an_object(rt: HostRuntime) -> Result<(), Fail> {
    let alloc = rt.alloc();
    let refused = refusing(alloc, Code::UNAUTHORIZED, Some(23))?;
    assert!(rt;
        is_object(
            alloc,
            refused,
            r#"{"code":"4.01","level":"refused","peer":"192.0.2.7:40000","reason":23,"time":"2023-11-14T22:13:20.123Z","why":"it came before, or is too old"}"#
        )?
    );
    let unprotected = refusing(alloc, Code::UNAUTHORIZED, None)?;
    assert!(rt;
        is_object(
            alloc,
            unprotected,
            r#"{"code":"4.01","level":"refused","peer":"192.0.2.7:40000","time":"2023-11-14T22:13:20.123Z","why":"it is not protected"}"#
        )?
    );
    // A quotation mark and a backslash are escaped.
    let served = serving(alloc, b"\x02\xb4l\"\\\n\xffhidden")?;
    assert!(rt;
        is_object(
            alloc,
            served,
            r#"{"code":"2.05","level":"served","method":"POST","path":"/l\"\\?","peer":"192.0.2.7:40000","time":"2023-11-14T22:13:20.123Z"}"#
        )?
    );
    let unread = serving(alloc, b"")?;
    assert!(rt;
        is_object(
            alloc,
            unread,
            r#"{"code":"2.05","level":"served","peer":"192.0.2.7:40000","time":"2023-11-14T22:13:20.123Z"}"#
        )?
    );
    let sent = sending(alloc, &[&[0x60, 0x45, 0, 1]])?;
    assert!(rt;
        is_object(
            alloc,
            sent,
            r#"{"code":"2.05","level":"sent","peer":"192.0.2.7:40000","time":"2023-11-14T22:13:20.123Z"}"#
        )?
    );
    Ok(())
}

/// The line of a wall clock that is so many seconds behind.
fn behind_line(alloc: Global, form: Form, seconds: u64) -> Vec<u8> {
    let mut lines = Lines::new(form, 3600, Vec::new(alloc));
    lines.behind(moment(), seconds);
    lines.into_writer()
}

#[test]
fn a_clock_behind_is_a_line(rt: HostRuntime) -> Result<(), Fail> {
    let alloc = rt.alloc();
    assert_eq!(rt;
        behind_line(alloc, Form::Text, 3_600).as_slice(),
        b"the clock is 3600 seconds behind the time of this node\n".as_slice()
    );
    assert_eq!(rt;
        behind_line(alloc, Form::Json, u64::MAX).as_slice(),
        br#"{"level":"fault","time":"2023-11-14T22:13:20.123Z","why":"the clock is 18446744073709551615 seconds behind the time of this node"}
"#
            .as_slice()
    );
    Ok(())
}

#[test]
fn faults_are_objects(rt: HostRuntime) -> Result<(), Fail> {
    let alloc = rt.alloc();
    let pipe = FullPipe {
        refuses: 1,
        taken: Vec::new(alloc),
        fd: 2,
    };
    let mut lines = Lines::new(Form::Json, 3600, pipe);
    lines.no_settings(alloc, Some("dropped"));
    tell(
        alloc,
        &mut lines,
        moment(),
        &Step::sending(Datagrams::new(alloc)),
    );
    lines.lost(moment());
    lines.no_settings(alloc, Some("settings: key a should not be there"));
    lines.no_settings(alloc, None);
    assert_eq!(rt;
        lines.into_writer().taken.as_slice(),
        br#"{"level":"fault","time":"2023-11-14T22:13:20.123Z","why":"1 lines could not be written"}
{"level":"fault","time":"2023-11-14T22:13:20.123Z","why":"out of memory: what came is lost"}
{"level":"fault","why":"settings: key a should not be there"}
{"level":"fault","why":"out of memory: why the settings are bad is not told"}
"#
            .as_slice()
    );
    Ok(())
}

/// A step in which a post was agreed to, with the token of this id.
fn posting(alloc: Global, id: &[u8]) -> Result<Step, AllocError> {
    let out = answers(alloc, &[&[0x60, 0x41, 0, 1]])?;
    Ok(Step {
        out,
        notes: StepNotes::quiet()
            .with_drawn(*b"12345678")
            .with_holder(shared(alloc, id)?),
    })
}

/// A step that serves under a context of the token of this id.
fn serving_by(alloc: Global, id: &[u8]) -> Result<Step, AllocError> {
    let Step { out, notes } = serving(alloc, b"\x01\xb1e")?;
    Ok(Step {
        out,
        notes: notes.with_holder(shared(alloc, id)?),
    })
}

fn shared(alloc: Global, id: &[u8]) -> Result<SharedBytes, AllocError> {
    SharedBytes::new(alloc, Bytes::from_slice(alloc, id)?)
}

/// What is told in this form of a post and of what is served, by the token of this id.
fn told_by(alloc: Global, form: Form, id: &[u8]) -> Result<Vec<u8>, AllocError> {
    let mut lines = Lines::new(form, 3600, Vec::new(alloc));
    let post = posting(alloc, id)?;
    let served = serving_by(alloc, id)?;
    for &step in &[&post, &served] {
        tell(alloc, &mut lines, moment(), step);
    }
    Ok(lines.into_writer())
}

// Whose token it was is told of what is served, and by text of the answer to the post as well.
#[test]
fn who_is_served_is_told(rt: HostRuntime) -> Result<(), Fail> {
    let alloc = rt.alloc();
    assert_eq!(rt;
        told_by(alloc, Form::Json, b"\xab")?.as_slice(),
        br#"{"code":"2.01","level":"sent","peer":"192.0.2.7:40000","time":"2023-11-14T22:13:20.123Z"}
{"code":"2.05","level":"served","method":"GET","path":"/e","peer":"192.0.2.7:40000","time":"2023-11-14T22:13:20.123Z","token":"ab"}
"#
            .as_slice()
    );
    assert_eq!(rt;
        told_by(alloc, Form::Text, b"\xab\x01")?.as_slice(),
        b"1700000000123 192.0.2.7:40000 sent 2.01 by ab01\n1700000000123 192.0.2.7:40000 served GET /e: 2.05 by ab01\n".as_slice()
    );
    assert_eq!(rt;
        told_by(alloc, Form::Text, b"")?.as_slice(),
        b"1700000000123 192.0.2.7:40000 sent 2.01 by -\n1700000000123 192.0.2.7:40000 served GET /e: 2.05 by -\n".as_slice()
    );
    Ok(())
}

// ---- counters

const HOUR: u64 = 3600000;

/// What is told in this form of some turns of two hours.
fn two_hours(alloc: Global, form: Form) -> Result<Vec<u8>, AllocError> {
    let refused = refusing(alloc, Code::UNAUTHORIZED, None)?;
    let replayed = refusing(alloc, Code::UNAUTHORIZED, Some(23))?;
    let served = serving(alloc, b"\x01\xb3log")?;
    let none = Step::sending(Datagrams::new(alloc));
    let mut lines = Lines::new(form, 3600, Vec::new(alloc));
    for &(ms, step) in &[
        (0, &refused),
        (1, &replayed),
        (2, &replayed),
        (3, &served),
        (HOUR - 1, &none),
        (HOUR + 5, &none),
        (HOUR + 6, &none),
        (2 * HOUR + 4, &none),
        (2 * HOUR + 5, &served),
    ] {
        tell(alloc, &mut lines, later(ms), step);
    }
    lines.lost(later(2 * HOUR + 6));
    Ok(lines.into_writer())
}

#[test]
fn counters_are_told_each_hour(rt: HostRuntime) -> Result<(), Fail> {
    let alloc = rt.alloc();
    assert_eq!(rt;
        two_hours(alloc, Form::Text)?.as_slice(),
        b"1700000000123 192.0.2.7:40000 refused 4.01: it is not protected\n\
1700000000124 192.0.2.7:40000 refused 4.01: it came before, or is too old (23)\n\
1700000000125 192.0.2.7:40000 refused 4.01: it came before, or is too old (23)\n\
1700000000126 192.0.2.7:40000 served GET /log: 2.05\n\
1700003600128 counted received=6 sent=4 served=1 refused=3 refused_0=1 refused_23=2 contexts=3 resources=2\n\
1700007200128 192.0.2.7:40000 served GET /log: 2.05\n\
1700007200128 counted received=9 sent=5 served=2 refused=3 refused_0=1 refused_23=2 contexts=3 resources=2\n\
out of memory: what came is lost\n"
            .as_slice()
    );
    let told = two_hours(alloc, Form::Json)?;
    let counted = told
        .split(|byte| *byte == b'\n')
        .collect::<Vec<&[u8]>>(alloc)?;
    assert_eq!(rt; counted.len(), 9);
    assert_eq!(rt;
        counted[6],
        br#"{"contexts":3,"level":"counted","received":9,"refused":3,"refused_0":1,"refused_23":2,"resources":2,"sent":5,"served":2,"time":"2023-11-15T00:13:20.128Z"}"#.as_slice()
    );
    Ok(())
}

// ---- outputs

// Where the system says that a descriptor takes nothing now, nothing is written, and nobody waits.
#[test]
fn a_writer_that_never_waits(rt: HostRuntime) -> Result<(), Fail> {
    let alloc = rt.alloc();
    // No descriptor has a number below 0, so none is ready.
    let mut full = AtOnce::new(FullPipe {
        refuses: 0,
        taken: Vec::new(alloc),
        fd: -1,
    });
    let refused = full.write(b"line").err().map(|error| error.kind());
    assert!(rt; refused == Some(ErrorKind::WouldBlock));
    let mut ready = AtOnce::new(FullPipe {
        refuses: 0,
        taken: Vec::new(alloc),
        fd: 2,
    });
    assert_eq!(rt; ready.write(b"line").ok(), Some(4));
    // Of more than a pipe takes at once, the first part is.
    let long = vec![in alloc; b'a'; 5000]?;
    assert_eq!(rt; ready.write(&long).ok(), Some(4096));
    Ok(())
}
