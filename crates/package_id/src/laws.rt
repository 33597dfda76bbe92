// What holds of every id and its key.
ghost use Rattle.std.specs.Prelude.{◌≡◌, ℕ, List, IsTrue};
ghost use Rattle.std.specs.List.{list_all};
ghost use Rattle.package_id.specs.Ids.{is_id, IsId, id_key, is_id_key_byte, is_bare_byte, IsSegment};
ghost use Rattle.package_id.specs.Refusals.{IsRefusedFor};
ghost use Rattle.package_id.specs.declared.error.IdErr.{IdErr};

/// The laws of keys, on which the names of documents rest: a key is a segment of a path, an id again
/// and its own key, and neither it nor its id needs an escape in JSON. It does nothing.
pub fn key_laws()
    ensures segment { (text : List ℕ) → IsId text → IsSegment (id_key text) }
    ensures bytes { (text : List ℕ) → IsId text → IsTrue (list_all is_id_key_byte (id_key text)) }
    ensures bare { (text : List ℕ) → IsId text → IsTrue (list_all is_bare_byte text) }
    ensures is_id { (text : List ℕ) → is_id (id_key text) ≡ is_id text }
    ensures own_key { (text : List ℕ) → id_key (id_key text) ≡ id_key text }
{}

/// A text has at most one reason to be refused as an id. It does nothing.
pub fn reasons_exclude()
    ensures { (text : List ℕ) (one other : IdErr) → IsRefusedFor text one → IsRefusedFor text other → one ≡ other }
{}
