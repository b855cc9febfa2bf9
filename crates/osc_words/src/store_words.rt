//! What the words of `osc store` ask for.

use crate::source::FileName;

/// What `osc store` is asked for.
#[derive(Debug, PartialEq, Eq, Drop)]
pub struct StoreWords {
    /// The file that the store is in, which is only read.
    pub file: FileName,
    /// Whether the resources are printed as settings, in place of their list.
    pub dump: bool,
    /// Whether of a damaged log is taken what stands before the damage.
    pub until_damage: bool,
    /// The new file that alone is to be a store of the same resources, if one is wanted.
    pub backup: Option<FileName>,
}
