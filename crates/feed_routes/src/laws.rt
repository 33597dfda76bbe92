// What holds of the table. The functions do nothing.
ghost use Rattle.std.specs.Prelude.{◌≡◌, ◌↔◌, ◌<◌, ◌^◌, ◌++◌, List, ℕ, IsTrue, codes, decimal};
ghost use Rattle.fold_core.specs.Docs.{name_below};
ghost use Rattle.http_wire.specs.declared.response.Verb.{Verb};
ghost use Rattle.nuget_version.specs.Printed.{key_text};
ghost use Rattle.nuget_version.specs.declared.version.Version.{Version};
ghost use Rattle.package_id.specs.Ids.{IsShortId, id_key};
ghost use Rattle.feed_routes.specs.Bases.{IsBaseAddress, is_base_address};
ghost use Rattle.feed_routes.specs.Names.{IsContentTailOf, IsRegistrationTail};
ghost use Rattle.feed_routes.specs.Segments.{IsIdKey, IsNumber, IsVersionKey};
ghost use Rattle.feed_routes.specs.Table.{AsksFor, HasRoute, IsUnknown, NeedsVerb};
ghost use Rattle.feed_routes.specs.declared.ask.Ask.{Ask};
ghost use Rattle.feed_routes.specs.declared.ask.Ask.TheVariants as ask;
ghost use Rattle.fold_core.specs.declared.hive.HiveName.TheVariants as hive;

/// A path and a query ask for one thing at most, and a method and a target have one answer at most.
pub fn table_is_a_function()
    ensures one { (path query : List ℕ) (a b : Ask) → AsksFor path query a → AsksFor path query b → a ≡ b }
    ensures known { (method target : List ℕ) (a : Ask) → HasRoute method target a → IsUnknown target → ⊥ }
    ensures allowed { (method target : List ℕ) (a : Ask) (verb : Verb) → HasRoute method target a → NeedsVerb method target verb → ⊥ }
    ensures unknown { (method target : List ℕ) (verb : Verb) → NeedsVerb method target verb → IsUnknown target → ⊥ }
    ensures verb { (method target : List ℕ) (v w : Verb) → NeedsVerb method target v → NeedsVerb method target w → v ≡ w }
{}

/// The key of each id and of each version can stand in a path, and so can each number.
pub fn keys_stand_in_paths()
    ensures ids { (text : List ℕ) → IsShortId text → IsIdKey (id_key text) }
    ensures versions { (v : Version) → IsVersionKey (key_text v) }
    ensures numbers { (n : ℕ) → n < 2 ^ 64 → IsNumber (decimal n) }
{}

/// The documents of the catalog and of the hives have routes: behind a base address, their URLs are the paths.
pub fn documents_have_routes()
    ensures page { (k : ℕ) (query : List ℕ) → k < 2 ^ 64
        → let name = codes "page" ++ (decimal k ++ codes ".json") in AsksFor (codes "/v3/catalog/" ++ name) query (ask.CatalogDoc name) }
    ensures leaf { (n place : ℕ) (query : List ℕ) → n < 2 ^ 64 → place < 2 ^ 64
        → let name = codes "data/" ++ (decimal n ++ (codes "/" ++ (decimal place ++ codes ".json"))) in
        AsksFor (codes "/v3/catalog/" ++ name) query (ask.CatalogDoc name) }
    ensures plain { (text tail query : List ℕ) → IsShortId text → IsRegistrationTail tail
        → let key = id_key text in AsksFor (codes "/v3/registration/" ++ (key ++ (codes "/" ++ tail))) query (ask.Registration hive.Plain (name_below key tail)) }
    ensures semver2 { (text tail query : List ℕ) → IsShortId text → IsRegistrationTail tail
        → let key = id_key text in
        AsksFor (codes "/v3/registration-semver2/" ++ (key ++ (codes "/" ++ tail))) query (ask.Registration hive.SemVer2 (name_below key tail)) }
    ensures content { (text tail query : List ℕ) → IsShortId text → IsContentTailOf (id_key text) tail
        → let key = id_key text in AsksFor (codes "/v3/flat/" ++ (key ++ (codes "/" ++ tail))) query (ask.Flat (name_below key tail)) }
{}

/// The test of base addresses tells exactly these.
pub fn base_addresses_are_tested()
    ensures { (text : List ℕ) → IsTrue (is_base_address text) ↔ IsBaseAddress text }
{}
