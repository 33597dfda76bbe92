// The service index.
ghost use Rattle.std.specs.Prelude.{◌≡◌, map, IfOk};
ghost use Rattle.serde_json.specs.View.{view};
ghost use Rattle.feed_routes.specs.Index.{service_index_data, service_index_object, resource_data, resources, service_index_text};

use nuget_version::{Bytes, NoMemory};
use serde_json::{Value, json};
use std::alloc::{AllocError, Global};

// The resource of this type, whose address ends so.
fn resource(alloc: Global, base: &str, kind: &str, end: &str) -> Result<Value, AllocError>
    ensures { IfOk result (λ v. view v ≡ resource_data base.now (kind.now, end.now)) }
{
    let url = format!(in alloc; "{base}{end}")?;
    json!(in alloc; {"@id": url, "@type": kind})
}

fn resources(alloc: Global, base: &str) -> Result<Vec<Value>, AllocError>
    ensures { IfOk result (λ values. map view values.items ≡ map (resource_data base.now) resources) }
{
    let values = vec![in alloc;
        resource(alloc, base, "Catalog/3.0.0", "v3/catalog/index.json")?,
        resource(alloc, base, "PackageBaseAddress/3.0.0", "v3/flat/")?,
        resource(alloc, base, "RegistrationsBaseUrl", "v3/registration/")?,
        resource(
            alloc,
            base,
            "RegistrationsBaseUrl/3.4.0",
            "v3/registration/"
        )?,
        resource(
            alloc,
            base,
            "RegistrationsBaseUrl/3.6.0",
            "v3/registration-semver2/"
        )?,
        resource(alloc, base, "SearchAutocompleteService", "v3/autocomplete")?,
        resource(
            alloc,
            base,
            "SearchAutocompleteService/3.0.0-rc",
            "v3/autocomplete"
        )?,
    ]?;
    Ok(values)
}

fn service_index_object(alloc: Global, resources: Vec<Value>) -> Result<Value, AllocError>
    ensures { IfOk result (λ v. view v ≡ service_index_object (map view resources.items)) }
{
    json!(in alloc; {"resources": resources, "version": "3.0.0"})
}

fn index_value(alloc: Global, base: &str) -> Result<Value, AllocError>
    ensures { IfOk result (λ v. view v ≡ service_index_data base.now) }
{
    let resources = resources(alloc, base)?;
    service_index_object(alloc, resources)
}

/// The service index of a feed at this base address, which is to end with `/`.
#[tactic(auto, unfolding(crate::specs::Index::service_index_text))]
pub fn service_index(alloc: Global, base: &str) -> Result<Bytes, NoMemory>
    ensures { IfOk result (λ bytes. bytes ≡ service_index_text base.now) }
{
    let value = index_value(alloc, base)?;
    let bytes = value.to_vec(alloc)?;
    Ok(Bytes::of(bytes))
}
