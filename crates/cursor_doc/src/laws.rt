// What holds of all cursor documents.
ghost use Rattle.cursor_doc.specs.Laws.{CursorsDiffer, first_cursor};
ghost use Rattle.std.specs.Prelude.{◌≡◌};
ghost use Rattle.cursor_doc.specs.Cursor.{cursor_text};

/// The cursor document of the commit 1 of 2024-01-01T00:00:00, byte for byte. It does nothing.
pub fn first_document()
    ensures { cursor_text 1 638_396_640_000_000_000 ≡ first_cursor }
{}

/// Different marks have different cursor documents. It does nothing.
pub fn different_cursors()
    ensures { CursorsDiffer }
{}
