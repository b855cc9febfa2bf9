//! Settings that are none, of a text without an end or with a log that nothing goes to. What is told of each fault is in examples/cases/settings.
use crate::broken::{BrokenWriter, Endless};
use osc_log::{Form, Lines, Log, Silent};
use osc_programs::{Ended, forward, serve};
use std::test::Fail;

/// A text that is too long is told as such, and read no further.
#[test]
fn a_text_has_an_end(rt: HostRuntime) -> Result<(), Fail> {
    let mut endless = Endless { given: 0 };
    let mut lines = Lines::new(Form::Text, 3600, Vec::from_slice(rt.alloc(), b"> ")?);
    assert_eq!(rt;
        serve(rt.alloc(), &rt, &mut endless, &mut lines, 1).ended,
        Ended::BadSettings
    );
    assert!(rt;
        lines.into_writer().as_slice()
            == b"> settings: the text has more than 1048576 bytes\n".as_slice()
    );
    assert_eq!(rt; endless.given, 1048577);
    Ok(())
}

/// Without a log nothing is told, and what can't be written is no failure.
#[test]
fn settings_end_alike_with_any_log(rt: HostRuntime) -> Result<(), Fail> {
    let mut reader = b"bind = 1".as_slice();
    assert_eq!(rt;
        serve(rt.alloc(), &rt, &mut reader, &mut Silent, 1).ended,
        Ended::BadSettings
    );
    let mut reader = b"bind = 1".as_slice();
    let mut lines = Lines::new(Form::Text, 3600, BrokenWriter { writes: 0 });
    assert_eq!(rt;
        forward(rt.alloc(), &rt, &mut reader, &mut lines, 1),
        Ended::BadSettings
    );
    Silent.no_settings(rt.alloc(), Some("settings: the text is no TOML"));
    Ok(())
}
