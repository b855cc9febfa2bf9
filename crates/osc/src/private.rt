//! Files that their owner alone can read.

use std::fs::{self, DirBuilder, File, OpenOptions};
use std::io::{self, ErrorKind};
use std::os::unix::fs::{DirBuilderExt, OpenOptionsExt};

/// Where a file is kept: its name, that of the file beside it which gets the name once it is whole, and that of a file which goes then.
#[derive(Drop)]
pub struct Place {
    name: String,
    new: String,
    gone: Option<String>,
}

impl Place {
    /// The file of this name.
    pub fn at(rt: &HostRuntime, name: &str) -> io::Result<Place> {
        Ok(Place {
            name: name.to_string(rt.alloc())?,
            new: format!(in rt.alloc(); "{name}-new")?,
            gone: None,
        })
    }

    /// The settings in the folder of a context of aiocoap, which is made for its owner alone where it isn't there. The numbers that were kept there
    /// for the context before go with it.
    pub fn in_folder(rt: &HostRuntime, folder: &str) -> io::Result<Place> {
        let name = format!(in rt.alloc(); "{folder}/settings.json")?;
        let new = format!(in rt.alloc(); "{name}-new")?;
        let gone = format!(in rt.alloc(); "{folder}/sequence.json")?;
        DirBuilder::new()
            .recursive(true)
            .mode(0o700)
            .create(rt, folder)?;
        Ok(Place {
            name,
            new,
            gone: Some(gone),
        })
    }

    /// Makes the file beside it, which its owner alone can read and write. What an earlier try left there is removed first.
    ///
    /// # Errors
    ///
    /// `AlreadyExists` where something has its name that is no file and no folder, as a device or a link: that isn't replaced.
    pub fn create(&self, rt: &HostRuntime) -> io::Result<File> {
        may_replace(rt, self.name.as_str())?;
        let _left = fs::remove_file(rt, self.new.as_str());
        OpenOptions::new()
            .write(true)
            .create_new(true)
            .mode(0o600)
            .open(rt, self.new.as_str())
    }

    /// Gives that file its name.
    pub fn keep(&self, rt: &HostRuntime) -> io::Result<()> {
        fs::rename(rt, self.new.as_str(), self.name.as_str())?;
        match &self.gone {
            Some(gone) => remove(rt, gone.as_str()),
            None => Ok(()),
        }
    }

    /// Removes it.
    pub fn forget(&self, rt: &HostRuntime) {
        let _removed = fs::remove_file(rt, self.new.as_str());
    }
}

// Whether what has this name may be replaced by a file, if anything does. (A folder is refused by the system.)
fn may_replace(rt: &HostRuntime, name: &str) -> io::Result<()> {
    match fs::symlink_metadata(rt, name) {
        Ok(there) if there.is_file() || there.is_dir() => Ok(()),
        Ok(_) => Err(io::Error::from(ErrorKind::AlreadyExists)),
        Err(error) if error.kind() == ErrorKind::NotFound => Ok(()),
        Err(error) => Err(error),
    }
}

fn remove(rt: &HostRuntime, name: &str) -> io::Result<()> {
    match fs::remove_file(rt, name) {
        Err(error) if error.kind() != ErrorKind::NotFound => Err(error),
        _ => Ok(()),
    }
}
