use texts::Text;

/// Who signs, for which region and service. It isn't printed, since it holds a secret.
#[derive(Drop)]
pub struct Signer {
    /// The access key's name, which stands in the request.
    pub access: Text,
    /// The key itself, which never does.
    pub secret: Text,
    /// The token of a session, where the key is one of a session.
    pub session: Option<Text>,
    pub region: Text,
    pub service: Text,
}
