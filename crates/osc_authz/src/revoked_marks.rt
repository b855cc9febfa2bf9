//! Marks of the contexts whose tokens are revoked.

ghost use Rattle.std.specs.Prelude.{◌≡◌, ℕ, [], ◌∷◌, ◌++◌, if◌then◌else◌, true, false, replicate};
ghost use Rattle.std.specs.Option.{option_map_or};
ghost use Rattle.osc_authz.specs.Inner.Revoking.{SetsMark, SetsMarks, UnmarksNew, UnmarksPosted, is_revoked_at, is_revoked_in};
ghost use Rattle.osc_authz.specs.Marked.{mark_of};
ghost use Rattle.osc_authz.specs.Table.{contexts, listed};

use crate::context::ServerContext;
use crate::error::PostError;
use crate::marks::Marks;
use crate::post::{Post, PostReply};
use crate::standing::is_there;
use crate::token_entry::TokenEntry;
use osc_model::Path;
use osc_tree::Tree;
use std::alloc::AllocError;
use std::marker::Model;

/// A mark for each recipient ID of one byte: whether the token of the context that has it is revoked. Contracts see the list of them.
pub struct RevokedMarks {
    pub(crate) marks: Marks,
}

impl Drop for RevokedMarks {
    fn drop(self) {
        let RevokedMarks { marks: _ } = self;
    }
}

impl Model for RevokedMarks {
    ghost use Rattle.std.specs.Prelude.{List, Bool};
    ghost use Rattle.std.specs.Coded.{coded_list, coded_bool};

    ghost Value = { List Bool };

    ghost coded = { coded_list coded_bool };

    ghost view = { λ revoked. revoked.marks };
}

impl RevokedMarks {
    /// No ID is marked.
    pub fn none() -> RevokedMarks
        ensures { result ≡ replicate 256 false }
    {
        RevokedMarks {
            marks: [false; 256],
        }
    }

    /// The marks of the contexts of this table for which the tree has a resource that revokes their token.
    pub(crate) fn of(table: &[TokenEntry], tree: &Tree) -> RevokedMarks
        ensures { SetsMarks (is_revoked_in tree.now) true (contexts table.now) (replicate 256 false) result }
    {
        let mut marks = [false; 256];
        mark_revoked(&mut marks, table, tree);
        RevokedMarks { marks }
    }

    /// Whether the context with this recipient ID is of a revoked token.
    pub(crate) fn has(&self, id: &[u8]) -> bool
        ensures { result ≡ mark_of self.now id.now }
    {
        let [byte] = id else {
            return false;
        };
        self.marks[usize::from(*byte)]
    }

    /// A post came to this: where it made a context, that one's token isn't revoked.
    pub(crate) fn unmark_new(&mut self, posted: &Result<Post, AllocError>)
        ensures { UnmarksPosted posted.now self.old self.new }
    {
        match posted {
            Ok(post) => self.unmark_answered(&post.answer),
            Err(_) => {}
        }
    }

    /// The same of what was answered.
    fn unmark_answered(&mut self, answer: &Result<PostReply, PostError>)
        ensures { UnmarksNew answer.now self.old self.new }
    {
        match answer {
            Ok(PostReply::New(made)) => set_mark(&mut self.marks, &[made.recipient_id], false),
            Ok(PostReply::Known(_)) => {}
            Err(_) => {}
        }
    }

    /// Each context of the table whose token is revoked by a resource at this path is one of a revoked token now, or isn't.
    pub(crate) fn set(&mut self, table: &[TokenEntry], path: &Path, revoked: bool)
        ensures { SetsMarks (is_revoked_at path.now) revoked (contexts table.now) self.old self.new }
    {
        set_marks(&mut self.marks, table, path, revoked);
    }
}

/// Sets the marks of the contexts that a resource at this path revokes.
fn set_marks(marks: &mut Marks, table: &[TokenEntry], path: &Path, mark: bool)
    ensures { SetsMarks (is_revoked_at path.now) mark (contexts table.now) marks.old marks.new }
{
    for entry in table {
        set_entry(marks, entry, path, mark);
    }
}

/// The same of one token id.
#[inline(always)]
fn set_entry(marks: &mut Marks, entry: &TokenEntry, path: &Path, mark: bool)
    ensures { SetsMarks (is_revoked_at path.now) mark (listed entry.now.confirmed ++ listed entry.now.pending) marks.old marks.new }
{
    set_context(marks, &entry.confirmed, path, mark);
    set_context(marks, &entry.pending, path, mark);
}

/// The same of one context, where it is there.
#[inline(always)]
fn set_context(marks: &mut Marks, context: &Option<ServerContext>, path: &Path, mark: bool)
    ensures { SetsMarks (is_revoked_at path.now) mark (listed context.now) marks.old marks.new }
{
    if let Some(context) = context {
        if context.is_revoked_at(path) {
            set_mark(marks, context.name.client_id.as_slice(), mark);
        }
    }
}

/// Marks the contexts for which the tree has a resource that revokes their token.
fn mark_revoked(marks: &mut Marks, table: &[TokenEntry], tree: &Tree)
    ensures { SetsMarks (is_revoked_in tree.now) true (contexts table.now) marks.old marks.new }
{
    for entry in table {
        mark_entry(marks, entry, tree);
    }
}

/// The same of one token id.
fn mark_entry(marks: &mut Marks, entry: &TokenEntry, tree: &Tree)
    ensures { SetsMarks (is_revoked_in tree.now) true (listed entry.now.confirmed ++ listed entry.now.pending) marks.old marks.new }
{
    mark_context(marks, &entry.confirmed, tree);
    mark_context(marks, &entry.pending, tree);
}

/// The same of one context, where it is there.
fn mark_context(marks: &mut Marks, context: &Option<ServerContext>, tree: &Tree)
    ensures { SetsMarks (is_revoked_in tree.now) true (listed context.now) marks.old marks.new }
{
    if let Some(context) = context {
        if is_there(tree, &context.revocation) {
            set_mark(marks, context.name.client_id.as_slice(), true);
        }
    }
}

/// Sets the mark of an ID, where that has one byte.
fn set_mark(marks: &mut Marks, id: &[u8], mark: bool)
    ensures { SetsMark id.now mark marks.old marks.new }
{
    if let [byte] = id {
        marks[usize::from(*byte)] = mark;
    }
}
