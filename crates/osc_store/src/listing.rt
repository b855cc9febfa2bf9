//! The table, and what a database lists.
ghost use Rattle.std.specs.Prelude.{◌≡◌, ◌↔◌, [], ◌∷◌, IsTrue};
ghost use Rattle.sqlite_value.specs.declared.value.Value.TheVariants.{Text};
ghost use Rattle.sqlite_value.specs.Value.{owned};
ghost use Rattle.osc_store.specs.Opening.{IsOwnList, Lists};

use sqlite_trees::schema::Object;
use sqlite_trees::store::Shape;
use sqlite_value::keys::Order;
use sqlite_value::order::is_same;
use sqlite_value::row::Row;
use sqlite_value::value::ValueRef;

/// The table of resources, as sqlite_schema lists it. A table WITHOUT ROWID is kept as an index is.
pub(crate) const TABLE: Object<'static> = Object {
    shape: Shape::Index(Order::PLAIN),
    kind: "table",
    name: "resource",
    table: "resource",
    reals: 0,
    sql: Some(
        "CREATE TABLE resource(path TEXT PRIMARY KEY, format INTEGER, payload BLOB NOT NULL) STRICT, WITHOUT ROWID",
    ),
};

/// What a database lists in sqlite_schema.
#[derive(Clone, Copy, Debug, PartialEq, Eq)]
pub(crate) enum Listed {
    /// Nothing.
    Nothing,
    /// The table, and nothing else.
    Own,
    /// First a table of this name, and something else.
    Other,
    /// Something else.
    Foreign,
}

// What these rows of sqlite_schema list.
pub(crate) fn read_list(rows: &[Row]) -> Listed
    ensures { Lists result rows.now }
{
    match rows {
        [] => Listed::Nothing,
        [row] if is_own(row) => Listed::Own,
        [row, ..] if is_text(row.get(2), b"resource") => Listed::Other,
        _ => Listed::Foreign,
    }
}

fn is_own(row: &Row) -> bool
    ensures { IsTrue result ↔ IsOwnList (row.now ∷ []) }
{
    is_text(row.get(2), b"resource")
        && is_text(
            row.get(5),
            b"CREATE TABLE resource(path TEXT PRIMARY KEY, format INTEGER, payload BLOB NOT NULL) STRICT, WITHOUT ROWID",
        )
}

fn is_text(value: ValueRef<'_>, text: &[u8]) -> bool
    ensures { IsTrue result ↔ (owned value.entry ≡ Text text.now) }
{
    is_same(value, ValueRef::Text(text))
}
