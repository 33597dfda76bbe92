// The type of package ids.
ghost use Rattle.std.specs.Prelude.{◌≡◌, ◌≤◌, length, IsTrue, IfOk};
ghost use Rattle.package_id.specs.Ids.{is_id, id_key};

use crate::error::IdErr;
use crate::grammar;
use nuget_version::{NoMemory, Text};
use std::alloc::Global;

/// The greatest length of an id, in bytes.
pub const MAX_ID_LEN: usize = 100;

/// The id of a package, as it was written, and the key by which ids are compared: the text in ASCII
/// lower case. A text is an id where it is parts of ASCII letters, digits and `_`, joined by single
/// `.` or `-`. A key serves as one segment of a path or of a name.
#[derive(Drop)]
pub struct PackageId {
    pub text: Text,
    pub key: Text,
    pub ghost spelled: { IsTrue (is_id text) },
    pub ghost short: { length text ≤ 100 },
    pub ghost lowered: { key ≡ id_key text },
}

impl PackageId {
    ghost use Rattle.std.specs.Prelude.{IfErr, IfNone, IfSome, OnOk, ◌↔◌};
    ghost use Rattle.package_id.specs.Ids.{IsShortId};
    ghost use Rattle.package_id.specs.Refusals.{IsRefusedFor};

    /// Reads an id. A text has at most one reason to be refused, so each error comes exactly where
    /// its reason holds.
    pub fn parse(alloc: Global, text: &str) -> Result<Self, IdErr>
        ensures accepted { OnOk result (IsShortId text.now) }
        ensures text { IfOk result (λ id. id.text ≡ text.now) }
        ensures key { IfOk result (λ id. id.key ≡ id_key text.now) }
        ensures refused { IfErr result (IsRefusedFor text.now) }
    {
        if text.is_empty() {
            return Err(IdErr::Empty);
        }
        if text.len() > MAX_ID_LEN {
            return Err(IdErr::TooLong(text.len() as u64));
        }
        match grammar::check(text.as_bytes()) {
            Ok(()) => Ok(make_id(alloc, text)?),
            Err(at) => Err(IdErr::BadByte(at as u64)),
        }
    }

    /// The id that a text is, by the grammar of `parse`, and nothing where it is none.
    pub fn read(alloc: Global, text: &str) -> Result<Option<Self>, NoMemory>
        ensures found { IfOk result (λ o. IfSome o (λ id. id.text ≡ text.now)) }
        ensures none { IfOk result (λ o. IfNone o (¬ IsShortId text.now)) }
    {
        match PackageId::parse(alloc, text) {
            Ok(id) => Ok(Some(id)),
            Err(IdErr::Memory) => Err(NoMemory),
            Err(_) => Ok(None),
        }
    }

    /// Whether the two are one id: their keys are equal.
    pub fn same(&self, other: &PackageId) -> bool
        ensures { IsTrue result ↔ (self.now.key ≡ other.now.key) }
    {
        self.key.is_same(&other.key)
    }

    pub fn copy(&self, alloc: Global) -> Result<Self, NoMemory>
        ensures { IfOk result (λ id. id ≡ self.now) }
    {
        let text = self.text.copy(alloc)?;
        let key = self.key.copy(alloc)?;
        Ok(PackageId { text, key })
    }
}

// The id of a text that is one.
fn make_id(alloc: Global, text: &str) -> Result<PackageId, NoMemory>
    requires spelled { IsTrue (is_id text.now) }
    requires short { length text.now ≤ 100 }
    ensures text { IfOk result (λ id. id.text ≡ text.now) }
    ensures key { IfOk result (λ id. id.key ≡ id_key text.now) }
{
    let key = text.to_ascii_lowercase(alloc)?;
    let text = Text::copy_of(alloc, text)?;
    Ok(PackageId {
        text,
        key: Text::of(key),
    })
}
