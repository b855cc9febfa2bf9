//! What is printed of settings, and of why a text isn't settings. Which texts are settings is in examples/cases/settings.
use osc_words::{KeyFault, SettingsError, SettingsKey, read_client_settings, read_server_settings};
use std::test::Fail;

const SERVER: &str =
    "bind = '127.0.0.1:5683'\nkey = '000102030405060708090a0B0C0D0e0f'\naudience = 's'\nopen = ['/log', '/a/b', '/log']\n";

const CLIENT: &str =
    "bind = '127.0.0.1:1'\npeer = '127.0.0.1:2'\nhost = 's'\nport = 3\ntoken = 'd08343'\nsecret = '01'\nsalt = '0203'\ncontext = ''\nalg = 30\n";

#[test]
fn secrets_are_not_printed(rt: HostRuntime) -> Result<(), Fail> {
    let server = read_server_settings(rt.alloc(), SERVER)?;
    let client = read_client_settings(rt.alloc(), CLIENT)?;
    let text = format!(in rt.alloc(); "{server:?} {client:?}")?;
    assert_eq!(rt; text.as_str(), "ServerSettings ClientSettings");
    Ok(())
}

#[test]
fn errors_are_told(rt: HostRuntime) -> Result<(), Fail> {
    for (error, wanted) in &[
        (SettingsError::NotToml(7), "settings: bad"),
        (
            SettingsError::Key(KeyFault::Wrong(SettingsKey::Bind)),
            "settings: bad",
        ),
        (
            SettingsError::Target(1, KeyFault::Missing(SettingsKey::To)),
            "settings: bad",
        ),
        (SettingsError::Memory, "out of memory"),
    ] {
        let text = format!(in rt.alloc(); "{error}")?;
        assert_eq!(rt; text.as_str(), *wanted);
    }
    Ok(())
}
