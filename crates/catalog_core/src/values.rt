// What the types of changes and of moments tell of their values.
ghost use Rattle.std.specs.Prelude.{◌≤◌, ◌<◌, ◌^◌, All, IfSome, IsUtf8, length};
ghost use Rattle.pkg_meta.specs.declared.dependency.DepGroup.{DepGroup};
ghost use Rattle.catalog_doc.specs.Reading.{HasTexts};
ghost use Rattle.catalog_laws.specs.Values.{AreChangeValues, IsChangeValue};

use catalog_doc::Change;
use pkg_meta::{DepGroup, Meta, Text, Ticks};

fn see_text(text: &Option<Text>)
    ensures { IfSome text.now IsUtf8 }
{
    if let Some(text) = text {
        let _bytes = text.as_bytes();
    }
}

fn see_texts(texts: &[Text])
    ensures { All IsUtf8 texts.now }
{
    for text in texts {
        let _bytes = text.as_bytes();
    }
}

fn see_frameworks(groups: &[DepGroup])
    ensures { All (λ (g : DepGroup). IfSome g.framework IsUtf8) groups.now }
{
    for group in groups {
        see_text(&group.framework);
    }
}

// Reads the texts of metadata, which are UTF-8.
fn see_meta(meta: &Meta)
    ensures { HasTexts meta.now }
{
    let _verbatim = meta.verbatim.as_bytes();
    see_text(&meta.authors);
    see_text(&meta.description);
    see_text(&meta.icon_url);
    see_text(&meta.license_url);
    see_text(&meta.min_client);
    see_text(&meta.project_url);
    see_text(&meta.release_notes);
    see_text(&meta.summary);
    see_text(&meta.title);
    see_texts(meta.tags.as_slice());
    see_frameworks(meta.groups.as_slice());
}

fn see_change(change: &Change)
    ensures { IsChangeValue change.now }
{
    if let Change::Publish { meta, package, .. } = change {
        see_meta(meta);
        let _size = package.as_slice().len();
    }
}

/// Reads the texts and the sizes of changes.
pub(crate) fn see_changes(changes: &[Change])
    ensures { AreChangeValues changes.now }
{
    for change in changes {
        see_change(change);
    }
}

/// Reads a moment's number.
pub(crate) fn see_moment(moment: Ticks)
    ensures { moment ≤ 3_155_378_975_999_999_999 }
{
    let _number = moment.number();
}
