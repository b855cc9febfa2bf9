//! What `osc store` prints of a store in a file of the system, as a list or as settings, and the back-up that it writes.
use osc_model::{Bytes, Path, Resource};
use osc_programs::{Ended, KeepsServer, Stores, list_store};
use osc_words::{
    ResourceSetting, ServerSettings, StoreDisk, Words, read_server_settings, read_words,
};
use std::alloc::Global;
use std::test::Fail;
use std::{fs, str};

const FOLDER: &str = "osc_programs_test";

const STORE: &str = "osc_programs_test/store";

const BACKUP: &str = "osc_programs_test/backup";

const SERVER: &str =
    "bind = '127.0.0.1:5683'\nkey = '000102030405060708090a0b0c0d0e0f'\naudience = 's'\nopen = []\n";

// One has a path that a basic string doesn't hold as it is, one a payload without a byte.
const RESOURCES: &str =
    "[[resource]]\npath = '/e'\nhex = ''\n[[resource]]\npath = '/about'\nformat = 0\ntext = 'a thing'\n[[resource]]\npath = \"/a\\\"b\\\\c\\u0000\\t\\n\\u007f\\u009bü/ x\"\nformat = 65535\nhex = '00fF'\n";

const DUMP: &str =
    "[[resource]]\npath = \"/a\\u0022b\\u005cc\\u0000\\u0009\\u000a\\u007f\\u009bü/ x\"\nformat = 65535\nhex = \"00ff\"\n\n[[resource]]\npath = \"/about\"\nformat = 0\nhex = \"61207468696e67\"\n\n[[resource]]\npath = \"/e\"\nhex = \"\"\n";

const LIST: &str =
    "resource /a\"b\\c????????/?x 65535 2 bytes\nresource /about 0 7 bytes\nresource /e none 0 bytes\n";

fn settings_of(alloc: Global, resources: &str) -> Result<ServerSettings, Fail> {
    let text = format!(in alloc; "{SERVER}{resources}")?;
    Ok(read_server_settings(alloc, text.as_str())?)
}

// A store of those resources, and of a last change that is in its log alone where one is wanted.
fn make(rt: &HostRuntime, is_changed: bool) -> Result<(), Fail> {
    let alloc = rt.alloc();
    let _ = fs::remove_dir_all(rt, FOLDER);
    fs::create_dir(rt, FOLDER)?;
    let settings = settings_of(alloc, RESOURCES)?;
    match rt.open_store(STORE, StoreDisk::Any, &settings.resources) {
        Ok((mut keeper, _tree)) if is_changed => change(alloc, &mut keeper),
        Ok(_) => Ok(()),
        Err(_) => Err(Fail::from("no store is made")),
    }
}

fn change<K: KeepsServer>(alloc: Global, keeper: &mut K) -> Result<(), Fail> {
    let Some(path) = Path::from_text(alloc, b"/log")? else {
        return Err(Fail::from("no path"));
    };
    let resource = Resource {
        format: None,
        payload: Bytes::from_slice(alloc, b"late")?,
    };
    match keeper.keep_start(&path, Some(&resource)) {
        Ok(()) => Ok(()),
        Err(_) => Err(Fail::from("a change isn't kept")),
    }
}

fn is_opened(rt: &HostRuntime, file: &str) -> bool {
    match rt.open_store(file, StoreDisk::Any, &[]) {
        Ok(_) => true,
        Err(_) => false,
    }
}

// What is printed where the words are accepted.
fn printed(rt: &HostRuntime, words: &[&str]) -> Option<Vec<u8>> {
    let Ok(Words::Store(words)) = read_words(rt.alloc(), words) else {
        return None;
    };
    let mut text = Vec::new(rt.alloc());
    match list_store(rt.alloc(), rt, &words, &mut text) {
        Ended::Done => Some(text),
        _ => None,
    }
}

fn is_text(found: &Option<Vec<u8>>, text: &str) -> bool {
    match found {
        Some(found) => found.as_slice() == text.as_bytes(),
        None => false,
    }
}

fn is_same(a: &ResourceSetting, b: &ResourceSetting) -> bool {
    a.path == b.path && a.format == b.format && a.payload.as_slice() == b.payload.as_slice()
}

// Whether these have the same resources, in any order.
fn are_same(a: &[ResourceSetting], b: &[ResourceSetting]) -> bool {
    a.len() == b.len()
        && a.iter()
            .all(|one| b.iter().any(|other| is_same(one, other)))
}

#[test]
fn a_dump_is_read_as_the_same_resources(rt: HostRuntime) -> Result<(), Fail> {
    let alloc = rt.alloc();
    make(&rt, false)?;
    let dump = printed(&rt, &["osc", "store", "--dump", STORE]);
    assert!(&rt; is_text(&dump, DUMP));
    assert!(&rt; is_text(&printed(&rt, &["osc", "store", STORE]), LIST));
    if let Some(dump) = dump {
        let again = settings_of(alloc, str::from_utf8(&dump)?)?;
        let first = settings_of(alloc, RESOURCES)?;
        assert!(&rt; are_same(&first.resources, &again.resources));
    }
    fs::remove_dir_all(&rt, FOLDER)?;
    Ok(())
}

#[test]
fn a_backup_alone_is_the_store(rt: HostRuntime) -> Result<(), Fail> {
    make(&rt, true)?;
    let first = fs::read(&rt, STORE)?;
    let list = format!(in rt.alloc(); "{LIST}resource /log none 4 bytes\n")?;
    let words = ["osc", "store", "--backup", BACKUP, STORE];
    assert!(&rt; is_text(&printed(&rt, &words), list.as_str()));
    assert!(&rt;
        fs::read(&rt, STORE)?.as_slice() == first.as_slice(),
        "it is only read"
    );
    assert!(&rt; !fs::exists(&rt, "osc_programs_test/backup-wal")?);
    assert!(&rt; !fs::exists(&rt, "osc_programs_test/backup-new")?);
    assert!(&rt; is_text(&printed(&rt, &["osc", "store", BACKUP]), list.as_str()));
    // What is there is written over by none.
    let backup = fs::read(&rt, BACKUP)?;
    assert!(&rt; printed(&rt, &words).is_none());
    assert!(&rt; fs::read(&rt, BACKUP)?.as_slice() == backup.as_slice());
    fs::rename(&rt, BACKUP, "osc_programs_test/backup-wal")?;
    assert!(&rt;
        printed(&rt, &words).is_none(),
        "a log would be taken for its own"
    );
    assert!(&rt; !fs::exists(&rt, BACKUP)?);
    // It is a server's store.
    fs::rename(&rt, "osc_programs_test/backup-wal", BACKUP)?;
    assert!(&rt; is_opened(&rt, BACKUP));
    assert!(&rt; is_text(&printed(&rt, &["osc", "store", BACKUP]), list.as_str()));
    fs::remove_dir_all(&rt, FOLDER)?;
    Ok(())
}

#[test]
fn after_the_last_turn_the_file_is_whole(rt: HostRuntime) -> Result<(), Fail> {
    let alloc = rt.alloc();
    make(&rt, true)?;
    fs::rename(&rt, STORE, BACKUP)?;
    assert!(&rt;
        printed(&rt, &["osc", "store", BACKUP]).is_none(),
        "its log is missing"
    );
    fs::rename(&rt, BACKUP, STORE)?;
    match rt.open_store(STORE, StoreDisk::Any, &[]) {
        Ok((mut keeper, _tree)) => {
            change(alloc, &mut keeper)?;
            assert!(&rt; keeper.keep_end().is_ok());
        }
        Err(_) => return Err(Fail::from("the store isn't opened")),
    }
    fs::rename(&rt, STORE, BACKUP)?;
    let list = format!(in alloc; "{LIST}resource /log none 4 bytes\n")?;
    assert!(&rt; is_text(&printed(&rt, &["osc", "store", BACKUP]), list.as_str()));
    fs::remove_dir_all(&rt, FOLDER)?;
    Ok(())
}
