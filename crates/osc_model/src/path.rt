//! The path of a resource.
ghost use Rattle.std.specs.Prelude.{◌≡◌, ◌↔◌, length, take, map, Some, refl, IfOk, OnErr, IfSome, IfNone, IsTrue, nat_eq, ◌==◌};
ghost use Rattle.std.specs.List.{slice_split, count_by, list_all};
ghost use Rattle.std.specs.Cmp.{partial_equiv_from_equiv};
ghost use Rattle.std.specs.Cmp.Lexicographic.{pointwise, nat_list_eq_equiv, nat_list_cmp_total, texts_ties, texts_po};
ghost use Rattle.std.specs.Str.{is_utf8};
ghost use Rattle.osc_model.specs.Path.{path_cmp, path_of, path_text, is_segment, are_segments, segments_of, begins_with, IsPath};

use crate::limits::{LONGEST_SEGMENT, MOST_SEGMENTS};
use std::alloc::{AllocError, Global};
use std::cmp::Ordering;
use std::marker::Model;
use std::str;

/// A path of 1 to 8 segments, each of 1 to 32 bytes of UTF-8 without `/`: what the Uri-Path options of a request
/// name (RFC 7252 section 5.10.1). Contracts see its text, which has a `/` before each segment. Paths are ordered
/// by the bytes of their texts.
#[derive(Debug, Drop)]
pub struct Path {
    text: Vec<u8>,
}

impl Model for Path {
    ghost use Rattle.std.specs.Prelude.{List, ℕ};
    ghost use Rattle.std.specs.Coded.{coded_list, coded_ℕ};

    ghost Value = { List ℕ };

    ghost coded = { coded_list coded_ℕ };

    ghost use Rattle.osc_model.specs.Path.{IsPath};

    ghost view = { λ p. p.text.items };

    ghost invariant = { λ p. IsPath p.text.items };
}

impl Path {
    /// The path of these segments, where they make one. Without memory for it an `AllocError`; segments that make none
    /// take none.
    pub fn from_segments(alloc: Global, segments: &[&[u8]]) -> Result<Option<Path>, AllocError>
        ensures path { IfOk result (λ path. path ≡ path_of (map (λ s. s.now) segments.now)) }
        ensures needs_memory { OnErr result (IsTrue (are_segments (map (λ s. s.now) segments.now))) }
    {
        if !make_a_path(segments) {
            return Ok(None);
        }
        let mut text = Vec::with_capacity(alloc, text_length(segments))?;
        for segment in segments {
            text.push(b'/')?;
            text.extend_from_slice(segment)?;
        }
        Ok(Some(Path { text }))
    }

    /// The path of this text, where it is one: with a `/` before each segment, as in `/a/b`. Without memory for it an
    /// `AllocError`; a text that is no path takes no memory.
    pub fn from_text(alloc: Global, text: &[u8]) -> Result<Option<Path>, AllocError>
        ensures found { IfOk result (λ found. IfSome found (λ path. path ≡ text.now)) }
        ensures path { IfOk result (λ found. IfSome found (λ path. IsPath path)) }
        ensures none { IfOk result (λ found. IfNone found (¬ IsPath text.now)) }
        ensures needs_memory { OnErr result (IsPath text.now) }
    {
        if !Path::is_text(text) {
            return Ok(None);
        }
        Ok(Some(Path {
            text: Vec::from_slice(alloc, text)?,
        }))
    }

    /// Whether this text is a path's; takes no memory.
    pub fn is_text(text: &[u8]) -> bool
        ensures { IsTrue result ↔ IsPath text.now }
    {
        match text.split_first() {
            Some((first, rest)) => *first == b'/' && are_segments(rest),
            None => false,
        }
    }

    /// The text, with a `/` before each segment.
    pub fn text(&self) -> &[u8]
        ensures text { result.now ≡ self.now }
        ensures path { IsPath self.now }
    {
        &self.text
    }

    /// How many segments it has: 1 to 8. Takes no memory.
    pub fn segments(&self) -> usize
        ensures { result ≡ length (segments_of self.now) }
    {
        slashes(self.text())
    }

    /// Whether this path begins with all segments of the other: it is that path, or one below it. Takes no memory.
    pub fn begins_with(&self, above: &Path) -> bool
        ensures { result ≡ begins_with (segments_of self.now) (segments_of above.now) }
    {
        match self.text.strip_prefix(above.text.as_slice()) {
            Some(rest) => ends_a_segment(rest),
            None => false,
        }
    }
}

// Whether a segment is whole where this follows: nothing, or a further segment.
fn ends_a_segment(rest: &[u8]) -> bool
    ensures { result ≡ list_all (λ b. b == 47) (take 1 rest.now) }
{
    matches!(rest, [] | [b'/', ..])
}

// Whether these are the segments of a path.
fn make_a_path(segments: &[&[u8]]) -> bool
    ensures { result ≡ are_segments (map (λ s. s.now) segments.now) }
{
    !segments.is_empty() && segments.len() <= 8 && all_lawful(segments)
}

fn all_lawful(segments: &[&[u8]]) -> bool
    ensures { result ≡ list_all is_segment (map (λ s. s.now) segments.now) }
{
    for segment in segments {
        if !is_segment(segment) {
            return false;
        }
    }
    true
}

// How long the text of these segments is.
fn text_length(segments: &[&[u8]]) -> usize
    requires { IsTrue (are_segments (map (λ s. s.now) segments.now)) }
    ensures { result ≡ length (path_text (map (λ s. s.now) segments.now)) }
{
    let mut length = 0;
    for segment in segments {
        length += 1 + segment.len();
    }
    length
}

// Whether a path's text goes on so after its first `/`.
fn are_segments(rest: &[u8]) -> bool
    ensures { result ≡ are_segments (slice_split (λ b. b == 47) rest.now) }
{
    slashes(rest) < MOST_SEGMENTS && all_segments(rest)
}

fn slashes(bytes: &[u8]) -> usize
    ensures { result ≡ count_by (λ b. b == 47) bytes.now }
{
    bytes.iter().filter(|b| **b == b'/').count()
}

fn all_segments(rest: &[u8]) -> bool
    ensures { result ≡ list_all is_segment (slice_split (λ b. b == 47) rest.now) }
{
    rest.split(|b| *b == b'/')
        .all(|segment| is_segment(segment))
}

// Whether these bytes are a segment.
fn is_segment(bytes: &[u8]) -> bool
    ensures { result ≡ is_segment bytes.now }
{
    !bytes.is_empty() && bytes.len() <= LONGEST_SEGMENT && !bytes.contains(&b'/') && is_utf8(bytes)
}

fn is_utf8(bytes: &[u8]) -> bool
    ensures { result ≡ is_utf8 bytes.now }
{
    str::from_utf8(bytes).is_ok()
}

impl PartialEq for Path {
    ghost eq = { pointwise nat_eq };

    ghost laws = { partial_equiv_from_equiv nat_list_eq_equiv };

    fn eq(&self, other: &Path) -> bool {
        self.text == other.text
    }
}

impl Eq for Path {
    ghost laws = { nat_list_eq_equiv };
}

impl PartialOrd for Path {
    ghost partial_cmp = { λ a b. Some (path_cmp a b) };

    ghost laws = { texts_po };

    fn partial_cmp(&self, other: &Path) -> Option<Ordering> {
        Some(self.cmp(other))
    }
}

impl Ord for Path {
    ghost cmp = { path_cmp };

    ghost total = { nat_list_cmp_total };

    ghost matches_partial_cmp = { λ a b. refl };

    ghost matches_eq = { texts_ties };

    fn cmp(&self, other: &Path) -> Ordering {
        self.text.as_slice().cmp(other.text.as_slice())
    }
}

impl Clone for Path {
    ghost is_clone = { λ path copy. copy ≡ path };

    fn clone(&self) -> Result<Self, AllocError> {
        Ok(Path {
            text: self.text.clone()?,
        })
    }
}
