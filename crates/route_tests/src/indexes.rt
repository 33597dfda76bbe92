// Service indexes.
use crate::same::same;
use feed_routes::service_index;
use std::test::Fail;

const INDEXES: [(&str, &str); 2] = [
    (
        "http://f.test/",
        "{\"resources\":[\
         {\"@id\":\"http://f.test/v3/catalog/index.json\",\"@type\":\"Catalog/3.0.0\"},\
         {\"@id\":\"http://f.test/v3/flat/\",\"@type\":\"PackageBaseAddress/3.0.0\"},\
         {\"@id\":\"http://f.test/v3/registration/\",\"@type\":\"RegistrationsBaseUrl\"},\
         {\"@id\":\"http://f.test/v3/registration/\",\"@type\":\"RegistrationsBaseUrl/3.4.0\"},\
         {\"@id\":\"http://f.test/v3/registration-semver2/\",\"@type\":\"RegistrationsBaseUrl/3.6.0\"},\
         {\"@id\":\"http://f.test/v3/autocomplete\",\"@type\":\"SearchAutocompleteService\"},\
         {\"@id\":\"http://f.test/v3/autocomplete\",\"@type\":\"SearchAutocompleteService/3.0.0-rc\"}\
         ],\"version\":\"3.0.0\"}",
    ),
    (
        "http://localhost:8080/",
        "{\"resources\":[\
         {\"@id\":\"http://localhost:8080/v3/catalog/index.json\",\"@type\":\"Catalog/3.0.0\"},\
         {\"@id\":\"http://localhost:8080/v3/flat/\",\"@type\":\"PackageBaseAddress/3.0.0\"},\
         {\"@id\":\"http://localhost:8080/v3/registration/\",\"@type\":\"RegistrationsBaseUrl\"},\
         {\"@id\":\"http://localhost:8080/v3/registration/\",\"@type\":\"RegistrationsBaseUrl/3.4.0\"},\
         {\"@id\":\"http://localhost:8080/v3/registration-semver2/\",\"@type\":\"RegistrationsBaseUrl/3.6.0\"},\
         {\"@id\":\"http://localhost:8080/v3/autocomplete\",\"@type\":\"SearchAutocompleteService\"},\
         {\"@id\":\"http://localhost:8080/v3/autocomplete\",\"@type\":\"SearchAutocompleteService/3.0.0-rc\"}\
         ],\"version\":\"3.0.0\"}",
    ),
];

#[test]
fn writes_service_indexes(rt: HostRuntime) -> Result<(), Fail> {
    for (base, text) in &INDEXES {
        let bytes = service_index(rt.alloc(), *base)?;
        same(&rt, bytes.as_slice(), text.as_bytes(), *base);
    }
    Ok(())
}
