//! Laws of the definitions, for the crates above. These functions do nothing: whoever calls one has its clauses for a proof.

ghost use Rattle.std.specs.Prelude.{◌≡◌, ◌↔◌, ◌<◌, ◌^◌, ◌&&◌, ℕ, List, Some, false, map, length};
ghost use Rattle.std.specs.List.{All, list_any};
ghost use Rattle.osc_cbor.specs.{array, spelling};
ghost use Rattle.osc_model.specs.{AreApart, allows, names};
ghost use Rattle.osc_model.specs.declared.code.Method.{Method as AnyMethod};
ghost use Rattle.osc_scope.specs.Entries.{Entry, IsLawful, IsScope, scope_of, has, has_path, entry_items, share_a_path};
ghost use Rattle.osc_scope.specs.Text.{Written, IsScopeText, scope_written, entry_of};

/// What a text says is what the bytes stand for that are written for it.
pub fn text_and_bytes()
    // They are bytes of a scope, ..
    ensures bytes { (text : List ℕ) (entries : List Written) → IsScopeText text entries → length text < 2 ^ 64
        → IsScope (spelling (array (entry_items (map entry_of entries)))) (map entry_of entries) }
    // .. and of the same one.
    ensures scope { (text : List ℕ) (entries : List Written) → IsScopeText text entries
        → scope_of (map entry_of entries) ≡ scope_written entries }
{
    osc_cbor::laws::what_is_written();
    osc_model::laws::permissions_are_ordered();
}

/// A scope of entries has a method on a path exactly where one of the entries has the path and the method.
pub fn one_of_the_entries()
    ensures { (entries : List Entry) (path : List ℕ) (method : AnyMethod)
        → allows (scope_of entries) path (Some method)
        ≡ list_any (λ entry. has_path entry path && has entry.mask method) entries }
{
    osc_model::laws::any_permission();
}

/// A scope of entries names a path exactly where one of the entries has it; so two scopes name a common path exactly where an entry of
/// one has the path of an entry of the other, or the other way about.
pub fn paths_of_entries()
    ensures named { (entries : List Entry) (path : List ℕ) → All IsLawful entries
        → names (scope_of entries) path ≡ list_any (λ entry. has_path entry path) entries }
    ensures apart { (entries others : List Entry) → All IsLawful entries → All IsLawful others
        → (AreApart (scope_of entries) (scope_of others) ↔ share_a_path entries others ≡ false) }
{
    osc_model::laws::any_permission();
    osc_model::laws::paths_in_common();
}

/// Bytes are a scope of one list of entries at most.
pub fn one_scope()
    ensures { (bytes : List ℕ) (entries others : List Entry)
        → IsScope bytes entries → IsScope bytes others → entries ≡ others }
{
    osc_cbor::laws::one_item();
}
