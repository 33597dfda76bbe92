//! The routes: what the method and the target of a request ask for, the service index that names the
//! resources, which texts are base addresses, and the trait of what answers requests. It takes no handle,
//! and knows no store and no link.
#![tactic(auto)]

mod ask;
mod bases;
mod catalog_names;
mod content_names;
mod hives;
mod id_keys;
mod ids;
mod index;
mod laws;
mod registration_names;
mod roots;
mod router;
mod routing;
mod segments;
mod service;
mod split;

pub use ask::{Ask, CommitWord, RouteErr};
pub use bases::base_ok;
pub use hives::hive_named;
pub use index::service_index;
pub use laws::{
    base_addresses_are_tested, documents_have_routes, keys_stand_in_paths, table_is_a_function,
};
pub use routing::route;
pub use service::{Answer, Service};
