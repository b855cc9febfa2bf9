//! Tests of `osc_tree`: requests on small trees, with their replies.
ghost use Rattle.std.specs.Prelude.{◌≤◌, IfOk, length};
ghost use Rattle.osc_model.specs.{longest_payload};

use osc_fixtures::{DELETE, EVERY_METHOD, GET, POST, PUT, scope_of};
use osc_model::{Bytes, Code, ETags, Method, Path, Request, Resource};
use osc_scope::Scope;
use osc_tree::{MOST_RESOURCES, Tree, etag};
use std::alloc::{AllocError, Global};
use std::test::Fail;

// The ETag of the empty resource without a format.
const TAG: [u8; 8] = [0x6e, 0x34, 0x0b, 0x9c, 0xff, 0xb3, 0x7a, 0x98];

// The ETag of the resource `a` without a format.
const TAG_OF_A: [u8; 8] = [0x02, 0x2a, 0x69, 0x79, 0xe6, 0xda, 0xb7, 0xaa];

// A request's conditions and formats.
#[derive(Clone, Copy)]
enum With {
    Nothing,
    Format(u16),
    Accept(u16),
    IfMatch(&'static [u8]),
    IfNoneMatch,
}

// A request's code, its path's one segment, the length of its payload, and what else it has.
type Asked = (u8, u8, usize, With);

// What is answered: the code, the payload's length and the format.
type Answer = (Code, usize, Option<u16>);

fn if_match(alloc: Global, with: With) -> Result<ETags, AllocError> {
    let mut tags = ETags::new(alloc);
    if let With::IfMatch(tag) = with {
        tags.push(alloc, tag)?;
    }
    Ok(tags)
}

fn request(alloc: Global, asked: Asked) -> Result<Request, AllocError> {
    let (code, segment, size, with) = asked;
    Ok(Request {
        code: Code(code),
        path: Path::from_text(alloc, &[b'/', segment])?,
        format: match with {
            With::Format(format) => Some(format),
            _ => None,
        },
        accept: match with {
            With::Accept(format) => Some(format),
            _ => None,
        },
        if_match: if_match(alloc, with)?,
        if_none_match: matches!(with, With::IfNoneMatch),
        payload: Bytes::from_slice(alloc, "a".repeat(alloc, size)?.as_bytes())?,
    })
}

fn answer(
    alloc: Global,
    tree: &mut Tree,
    scope: &Scope,
    asked: Asked,
) -> Result<Answer, AllocError> {
    let reply = tree.apply(alloc, None, scope, &request(alloc, asked)?)?;
    Ok((reply.code, reply.payload.len(), reply.format))
}

// `/e` is empty without a format, and `/f` is empty with format 42.
fn small_tree(alloc: Global, scope: &Scope) -> Result<Tree, AllocError> {
    let mut tree = Tree::new(alloc);
    answer(alloc, &mut tree, scope, (PUT, b'e', 0, With::Nothing))?;
    answer(alloc, &mut tree, scope, (PUT, b'f', 0, With::Format(42)))?;
    Ok(tree)
}

// What a small tree answers at first.
fn first_answer(alloc: Global, scope: &Scope, asked: Asked) -> Result<Answer, AllocError> {
    answer(alloc, &mut small_tree(alloc, scope)?, scope, asked)
}

// Requests, each on a small tree.
const CONDITIONS: [(Asked, Code); 10] = [
    ((PUT, b'e', 1, With::IfMatch(&TAG)), Code::CHANGED),
    (
        (PUT, b'e', 1, With::IfMatch(&[0; 8])),
        Code::PRECONDITION_FAILED,
    ),
    ((PUT, b'e', 1, With::IfMatch(&[])), Code::CHANGED),
    (
        (PUT, b'n', 1, With::IfMatch(&[])),
        Code::PRECONDITION_FAILED,
    ),
    ((PUT, b'e', 1, With::IfNoneMatch), Code::PRECONDITION_FAILED),
    ((PUT, b'n', 1, With::IfNoneMatch), Code::CREATED),
    ((GET, b'f', 0, With::Accept(42)), Code::CONTENT),
    ((GET, b'f', 0, With::Accept(43)), Code::NOT_ACCEPTABLE),
    ((GET, b'e', 0, With::Accept(43)), Code::CONTENT),
    ((GET, b'n', 0, With::Accept(43)), Code::NOT_FOUND),
];

#[test]
fn conditions_are_accepted(rt: HostRuntime) -> Result<(), Fail> {
    let scope = scope_of(rt.alloc(), EVERY_METHOD)?;
    for &(asked, code) in &CONDITIONS {
        let (answered, _, _) = first_answer(rt.alloc(), &scope, asked)?;
        assert!(rt; answered == code);
    }
    Ok(())
}

// Requests one after another on a small tree.
const IN_A_ROW: [(Asked, Answer); 18] = [
    ((POST, b'f', 500, With::Nothing), (Code::CHANGED, 0, None)),
    ((POST, b'f', 12, With::Nothing), (Code::CHANGED, 0, None)),
    ((POST, b'f', 0, With::Format(7)), (Code::CHANGED, 0, None)),
    (
        (POST, b'f', 1, With::Nothing),
        (Code::REQUEST_ENTITY_TOO_LARGE, 0, None),
    ),
    (
        (PUT, b'e', 513, With::Nothing),
        (Code::REQUEST_ENTITY_TOO_LARGE, 0, None),
    ),
    ((PUT, b'e', 512, With::Format(7)), (Code::CHANGED, 0, None)),
    (
        (POST, b'n', 513, With::Nothing),
        (Code::REQUEST_ENTITY_TOO_LARGE, 0, None),
    ),
    ((POST, b'n', 3, With::Nothing), (Code::CREATED, 0, None)),
    ((POST, b'n', 2, With::Nothing), (Code::CHANGED, 0, None)),
    ((GET, b'e', 0, With::Nothing), (Code::CONTENT, 512, Some(7))),
    (
        (GET, b'f', 0, With::Nothing),
        (Code::CONTENT, 512, Some(42)),
    ),
    ((GET, b'n', 0, With::Nothing), (Code::CONTENT, 5, None)),
    ((DELETE, b'e', 0, With::Nothing), (Code::DELETED, 0, None)),
    ((DELETE, b'e', 0, With::Nothing), (Code::DELETED, 0, None)),
    ((GET, b'e', 0, With::Nothing), (Code::NOT_FOUND, 0, None)),
    (
        (GET, b'f', 0, With::Nothing),
        (Code::CONTENT, 512, Some(42)),
    ),
    ((PUT, b'e', 1, With::Nothing), (Code::CREATED, 0, None)),
    ((GET, b'e', 0, With::Nothing), (Code::CONTENT, 1, None)),
];

#[test]
fn requests_change_the_tree(rt: HostRuntime) -> Result<(), Fail> {
    let alloc = rt.alloc();
    let scope = scope_of(alloc, EVERY_METHOD)?;
    let mut tree = small_tree(alloc, &scope)?;
    for &(asked, want) in &IN_A_ROW {
        assert_eq!(rt; answer(alloc, &mut tree, &scope, asked)?, want);
    }
    Ok(())
}

// GET on `/e`.
const GET_ON_E: &[u8] = b"\x81\x82\x62/e\x01";

// Requests, each on a small tree, under a scope of GET on `/e` and of nothing else.
const UNDER_A_SCOPE: [(Asked, Code); 6] = [
    ((PUT, b'e', 1, With::Nothing), Code::METHOD_NOT_ALLOWED),
    ((PUT, b'f', 1, With::Nothing), Code::FORBIDDEN),
    ((GET, b'/', 0, With::Nothing), Code::FORBIDDEN),
    ((GET, b'e', 0, With::Nothing), Code::NOT_FOUND),
    ((5, b'e', 1, With::Nothing), Code::METHOD_NOT_ALLOWED),
    ((5, b'f', 1, With::Nothing), Code::FORBIDDEN),
];

#[test]
fn the_scope_comes_first(rt: HostRuntime) -> Result<(), Fail> {
    let alloc = rt.alloc();
    let scope = scope_of(alloc, GET_ON_E)?;
    let mut tree = Tree::new(alloc);
    for &(asked, code) in &UNDER_A_SCOPE {
        let (answered, _, _) = answer(alloc, &mut tree, &scope, asked)?;
        assert!(rt; answered == code);
    }
    Ok(())
}

fn tag_answered(alloc: Global) -> Result<Option<[u8; 8]>, AllocError> {
    let scope = scope_of(alloc, EVERY_METHOD)?;
    let mut tree = small_tree(alloc, &scope)?;
    let get = request(alloc, (GET, b'e', 0, With::Nothing))?;
    Ok(tree.apply(alloc, None, &scope, &get)?.etag)
}

#[test]
fn a_get_answers_the_tag(rt: HostRuntime) -> Result<(), Fail> {
    let empty = Resource {
        format: None,
        payload: Bytes::new(rt.alloc()),
    };
    let tag = etag(&empty);
    assert_eq!(rt; tag, TAG);
    assert_eq!(rt; tag_answered(rt.alloc())?, Some(TAG));
    Ok(())
}

// Requests on `/e` in a row, each with the code and the ETag that are answered.
const TAGS_IN_A_ROW: [(Asked, Code, Option<[u8; 8]>); 9] = [
    ((GET, b'e', 0, With::Nothing), Code::CONTENT, Some(TAG)),
    ((GET, b'e', 0, With::Nothing), Code::CONTENT, Some(TAG)),
    ((POST, b'e', 1, With::IfMatch(&TAG)), Code::CHANGED, None),
    (
        (POST, b'e', 1, With::IfMatch(&TAG)),
        Code::PRECONDITION_FAILED,
        None,
    ),
    ((GET, b'e', 0, With::Nothing), Code::CONTENT, Some(TAG_OF_A)),
    ((GET, b'e', 0, With::Nothing), Code::CONTENT, Some(TAG_OF_A)),
    (
        (PUT, b'e', 0, With::IfMatch(&TAG_OF_A)),
        Code::CHANGED,
        None,
    ),
    ((GET, b'e', 0, With::Nothing), Code::CONTENT, Some(TAG)),
    (
        (GET, b'e', 0, With::IfMatch(&TAG)),
        Code::CONTENT,
        Some(TAG),
    ),
];

#[test]
fn a_tag_follows_its_resource(rt: HostRuntime) -> Result<(), Fail> {
    let alloc = rt.alloc();
    let scope = scope_of(alloc, EVERY_METHOD)?;
    let mut tree = small_tree(alloc, &scope)?;
    for &(asked, code, tag) in &TAGS_IN_A_ROW {
        let reply = tree.apply(alloc, None, &scope, &request(alloc, asked)?)?;
        assert!(rt; reply.code == code);
        assert_eq!(rt; reply.etag, tag);
    }
    Ok(())
}

// The path of this number.
fn numbered(alloc: Global, number: u16) -> Result<Option<Path>, AllocError> {
    let text = [
        b'/',
        b'a' + (number / 256 % 16) as u8,
        b'a' + (number / 16 % 16) as u8,
        b'a' + (number % 16) as u8,
    ];
    Path::from_text(alloc, &text)
}

// The code that answers a PUT on the path of this number.
fn put_numbered(alloc: Global, tree: &mut Tree, number: u16) -> Result<Code, AllocError> {
    let mut scope = Scope::new(alloc);
    if let Some(path) = numbered(alloc, number)? {
        scope.allow(alloc, path, Method::Put)?;
    }
    let mut put = request(alloc, (PUT, b'e', 1, With::Nothing))?;
    put.path = numbered(alloc, number)?;
    Ok(tree.apply(alloc, None, &scope, &put)?.code)
}

#[test]
fn a_tree_holds_1024_resources(rt: HostRuntime) -> Result<(), Fail> {
    let mut tree = Tree::new(rt.alloc());
    for number in 0..1024u16 {
        let code = put_numbered(rt.alloc(), &mut tree, number)?;
        assert!(rt; code == Code::CREATED);
    }
    let code = put_numbered(rt.alloc(), &mut tree, 1024)?;
    assert!(rt; code == Code::SERVICE_UNAVAILABLE);
    let code = put_numbered(rt.alloc(), &mut tree, 7)?;
    assert!(rt; code == Code::CHANGED);
    assert!(rt; tree.len() == MOST_RESOURCES);
    Ok(())
}

// Gives the path of one segment its segment as payload.
fn put_segment(alloc: Global, tree: &mut Tree, segment: u8) -> Result<(), AllocError> {
    if tree.is_full() {
        return Ok(());
    }
    match Path::from_text(alloc, &[b'/', segment])? {
        Some(path) => tree.put(alloc, path, resource_of(alloc, segment)?),
        None => Ok(()),
    }
}

// A resource of this byte.
fn resource_of(alloc: Global, byte: u8) -> Result<Resource, AllocError>
    ensures { IfOk result (λ resource. length resource.payload ≤ longest_payload) }
{
    Ok(Resource {
        format: Some(42),
        payload: Bytes::from_slice(alloc, &[byte])?,
    })
}

// The paths, each before its payload.
fn texts(alloc: Global, tree: &Tree) -> Result<Vec<u8>, AllocError> {
    let mut texts = Vec::new(alloc);
    for (path, resource) in tree.iter() {
        texts.extend_from_slice(path.text())?;
        texts.extend_from_slice(resource.payload.as_slice())?;
    }
    Ok(texts)
}

#[test]
fn a_copy_has_what_was_put(rt: HostRuntime) -> Result<(), Fail> {
    let alloc = rt.alloc();
    let mut tree = Tree::new(alloc);
    assert!(rt; tree.is_empty());
    put_segment(alloc, &mut tree, b'f')?;
    put_segment(alloc, &mut tree, b'e')?;
    let copy = tree.copy(alloc)?;
    let texts = texts(alloc, &copy)?;
    assert!(rt; texts.as_slice() == b"/ee/ff".as_slice());
    Ok(())
}
