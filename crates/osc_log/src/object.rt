//! A JSON object of texts and numbers.
ghost use Rattle.std.specs.Prelude.{◌≡◌, IfOk, codes, false, string_bytes};
ghost use Rattle.osc_log.specs.Line.{begun_members, object_line};
ghost use Rattle.serde_json.specs.Data.{no_members, number, object, put as with_member, string, unsigned};
ghost use Rattle.serde_json.specs.View.{members_view, view};
ghost use Rattle.serde_json.specs.Written.{compact_text, has_float, members_have_float};

use serde_json::{Map, Value, put};
use std::alloc::{AllocError, Global};

/// A JSON object whose members are texts and whole numbers.
#[derive(Drop)]
pub(crate) struct Object {
    map: Map<String, Value>,
    ghost whole: { members_have_float (members_view map.entries) ≡ false },
}

impl Object {
    /// Without members.
    pub fn new(alloc: Global) -> Object
        ensures { members_view result.map.entries ≡ no_members }
    {
        Object {
            map: Map::new(alloc),
        }
    }

    /// With this time and this level.
    pub fn begun(alloc: Global, time: &str, level: &str) -> Result<Object, AllocError>
        ensures { IfOk result (λ o. members_view o.map.entries ≡ begun_members time.now level.now) }
    {
        Object::new(alloc)
            .with_text(alloc, "time", time)?
            .with_text(alloc, "level", level)
    }

    /// With this text under this key.
    pub fn with_text(self, alloc: Global, key: &str, text: &str) -> Result<Object, AllocError>
        ensures { IfOk result (λ o. members_view o.map.entries ≡ with_member key.now (string text.now) (members_view self.map.entries)) }
    {
        let value = Value::try_from_str(alloc, text)?;
        self.with(alloc, key, value)
    }

    /// With this number under this key.
    pub fn with_number(self, alloc: Global, key: &str, n: u64) -> Result<Object, AllocError>
        ensures { IfOk result (λ o. members_view o.map.entries ≡ with_member key.now (number (unsigned n)) (members_view self.map.entries)) }
    {
        self.with(alloc, key, Value::from(n))
    }

    fn with(self, alloc: Global, key: &str, value: Value) -> Result<Object, AllocError>
        requires { has_float (view value) ≡ false }
        ensures { IfOk result (λ o. members_view o.map.entries ≡ with_member key.now (view value) (members_view self.map.entries)) }
    {
        let Object { mut map } = self;
        put(&mut map, alloc, key, value)?;
        Ok(Object { map })
    }

    /// Its line: its text without spaces, by order of the keys, and the line's end.
    pub fn line(self, alloc: Global) -> Result<Vec<u8>, AllocError>
        ensures { IfOk result (λ text. text.items ≡ object_line (members_view self.map.entries)) }
    {
        let text = self.text(alloc)?;
        let mut line = Vec::from_slice(alloc, text.as_bytes())?;
        line.push(b'\n')?;
        Ok(line)
    }

    fn text(self, alloc: Global) -> Result<String, AllocError>
        ensures { IfOk result (λ text. string_bytes text ≡ compact_text (object (members_view self.map.entries))) }
    {
        let Object { map } = self;
        Value::Object(map).to_string(alloc)
    }
}
