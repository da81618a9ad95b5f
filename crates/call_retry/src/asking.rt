use aws_world::Target;
use endpoint_rules::Endpoint;
use service_model::{Model, Operation};
use sigv4::Signer;

/// What a call asks, whom and how.
#[derive(Clone, Copy)]
pub struct Asking<'a> {
    pub model: &'a Model,
    pub op: &'a Operation,
    pub endpoint: &'a Endpoint,
    pub target: &'a Target,
    pub signer: Option<&'a Signer>,
    pub limit: u32,
}
