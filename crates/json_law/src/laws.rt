// The laws.
ghost use Rattle.std.specs.Prelude.{◌≡◌, ◌≤◌, Some, false, IsUtf8};
ghost use Rattle.serde_json.specs.Data.{Data, depth};
ghost use Rattle.serde_json.specs.Read.{read, max_depth};
ghost use Rattle.serde_json.specs.Written.{compact_text, has_float};
ghost use Rattle.json_law.specs.Fits.{Fits, IsText};

/// The compact text of data reads back as the data. It does nothing.
pub fn reads_back()
    ensures { (d : Data) → Fits d → depth d ≤ max_depth → read (compact_text d) ≡ Some d }
{}

/// Different data have different compact texts. It does nothing.
pub fn different_texts()
    ensures { (d e : Data) → Fits d → depth d ≤ max_depth → Fits e → depth e ≤ max_depth
        → compact_text d ≡ compact_text e → d ≡ e }
{}

/// The compact text of data whose strings are UTF-8 is UTF-8. It does nothing.
pub fn utf8_text()
    ensures { (d : Data) → Fits d → IsText d → IsUtf8 (compact_text d) }
{}

/// A writer's text of such data is the compact text, since there is no float in it. It does nothing.
pub fn no_floats()
    ensures { (d : Data) → Fits d → has_float d ≡ false }
{}
