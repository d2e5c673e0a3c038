// Erasure coding schemes: the limits that each one keeps, Hadoop's five policies, and how a policy that is sent becomes a scheme.
#![tactic(auto)]

mod codec;
mod fault;
mod resolve;
mod schema;
mod table;

pub use codec::Codec;
pub use fault::PolicyFault;
pub use resolve::{SentSchema, resolve_ec_policy, schema_by_id, schema_by_name};
pub use schema::EcSchema;
pub use table::{Policy, policy_by_id, policy_id};
