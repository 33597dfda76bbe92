// The kinds that the members of a publisher's metadata have.
ghost use Rattle.std.specs.Prelude.{◌≡◌, map, option_map};
ghost use Rattle.std.specs.List.{list_all};
ghost use Rattle.serde_json.specs.Find.{get};
ghost use Rattle.serde_json.specs.View.{view};
ghost use Rattle.pkg_meta.specs.Kinds.{first_misfit, is_dep, is_group, is_of_kind, kinds};
ghost use Rattle.pkg_meta.specs.Rows.{row_of};
ghost use Rattle.pkg_meta.specs.Values.{is_array_of, is_flag, is_optional, is_required, is_text};

use serde_json::Value;

/// The kind of a member's value. All but a required text may be absent or null.
#[derive(Clone, Copy, Debug, PartialEq, Eq)]
pub(crate) enum Kind {
    Text,
    RequiredText,
    /// True or false.
    Flag,
    /// An array of texts.
    Texts,
    /// An array of dependency groups.
    Groups,
}

/// A member of metadata, and its kind.
#[derive(Clone, Copy)]
struct Row {
    name: &'static str,
    kind: Kind,
}

// In byte order.
const ROWS: [Row; 14] = [
    Row {
        name: "authors",
        kind: Kind::Text,
    },
    Row {
        name: "dependencyGroups",
        kind: Kind::Groups,
    },
    Row {
        name: "description",
        kind: Kind::Text,
    },
    Row {
        name: "iconUrl",
        kind: Kind::Text,
    },
    Row {
        name: "id",
        kind: Kind::RequiredText,
    },
    Row {
        name: "licenseUrl",
        kind: Kind::Text,
    },
    Row {
        name: "minClientVersion",
        kind: Kind::Text,
    },
    Row {
        name: "projectUrl",
        kind: Kind::Text,
    },
    Row {
        name: "releaseNotes",
        kind: Kind::Text,
    },
    Row {
        name: "requireLicenseAcceptance",
        kind: Kind::Flag,
    },
    Row {
        name: "summary",
        kind: Kind::Text,
    },
    Row {
        name: "tags",
        kind: Kind::Texts,
    },
    Row {
        name: "title",
        kind: Kind::Text,
    },
    Row {
        name: "version",
        kind: Kind::RequiredText,
    },
];

fn is_optional_text(value: &Value, name: &str) -> bool
    ensures { result ≡ is_optional is_text (get name.now (view value.now)) }
{
    match value.get(name) {
        None => true,
        Some(member) => member.is_null() || member.is_string(),
    }
}

fn is_required_text(value: &Value, name: &str) -> bool
    ensures { result ≡ is_required is_text (get name.now (view value.now)) }
{
    match value.get(name) {
        None => false,
        Some(member) => member.is_string(),
    }
}

fn is_optional_flag(value: &Value, name: &str) -> bool
    ensures { result ≡ is_optional is_flag (get name.now (view value.now)) }
{
    match value.get(name) {
        None => true,
        Some(member) => member.is_null() || member.is_boolean(),
    }
}

fn are_texts(values: &[Value]) -> bool
    ensures { result ≡ list_all (λ v. is_text (view v)) values.now }
{
    values.iter().all(|value| value.is_string())
}

fn is_array_of_texts(value: &Value) -> bool
    ensures { result ≡ is_array_of is_text (view value.now) }
{
    match value.as_array() {
        None => false,
        Some(values) => are_texts(values.as_slice()),
    }
}

fn is_optional_texts(value: &Value, name: &str) -> bool
    ensures { result ≡ is_optional (is_array_of is_text) (get name.now (view value.now)) }
{
    match value.get(name) {
        None => true,
        Some(member) => member.is_null() || is_array_of_texts(member),
    }
}

fn is_dep(value: &Value) -> bool
    ensures { result ≡ is_dep (view value.now) }
{
    value.is_object() && is_required_text(value, "id") && is_optional_text(value, "range")
}

fn are_deps(values: &[Value]) -> bool
    ensures { result ≡ list_all (λ v. is_dep (view v)) values.now }
{
    values.iter().all(|value| is_dep(value))
}

fn is_array_of_deps(value: &Value) -> bool
    ensures { result ≡ is_array_of is_dep (view value.now) }
{
    match value.as_array() {
        None => false,
        Some(values) => are_deps(values.as_slice()),
    }
}

fn is_optional_deps(value: &Value, name: &str) -> bool
    ensures { result ≡ is_optional (is_array_of is_dep) (get name.now (view value.now)) }
{
    match value.get(name) {
        None => true,
        Some(member) => member.is_null() || is_array_of_deps(member),
    }
}

fn is_group(value: &Value) -> bool
    ensures { result ≡ is_group (view value.now) }
{
    value.is_object()
        && is_optional_text(value, "targetFramework")
        && is_optional_deps(value, "dependencies")
}

fn are_groups(values: &[Value]) -> bool
    ensures { result ≡ list_all (λ v. is_group (view v)) values.now }
{
    values.iter().all(|value| is_group(value))
}

fn is_array_of_groups(value: &Value) -> bool
    ensures { result ≡ is_array_of is_group (view value.now) }
{
    match value.as_array() {
        None => false,
        Some(values) => are_groups(values.as_slice()),
    }
}

fn is_optional_groups(value: &Value, name: &str) -> bool
    ensures { result ≡ is_optional (is_array_of is_group) (get name.now (view value.now)) }
{
    match value.get(name) {
        None => true,
        Some(member) => member.is_null() || is_array_of_groups(member),
    }
}

fn is_of_kind(value: &Value, name: &str, kind: Kind) -> bool
    ensures { result ≡ is_of_kind kind (get name.now (view value.now)) }
{
    match kind {
        Kind::Text => is_optional_text(value, name),
        Kind::RequiredText => is_required_text(value, name),
        Kind::Flag => is_optional_flag(value, name),
        Kind::Texts => is_optional_texts(value, name),
        Kind::Groups => is_optional_groups(value, name),
    }
}

fn first_misfit(value: &Value, rows: &[Row]) -> Option<&'static str>
    ensures { option_map (λ name. name.now) result ≡ first_misfit (map row_of rows.now) (view value.now) }
{
    for row in rows {
        if !is_of_kind(value, row.name, row.kind) {
            return Some(row.name);
        }
    }
    None
}

// The first member of metadata, in byte order, that isn't of its kind.
pub(crate) fn misfit(value: &Value) -> Option<&'static str>
    ensures { option_map (λ name. name.now) result ≡ first_misfit kinds (view value.now) }
{
    first_misfit(value, &ROWS)
}
