use texts::Text;

/// How a service is reached.
#[derive(Clone, Copy, Debug, PartialEq, Eq)]
pub enum Scheme {
    Http,
    Https,
}

/// Where the requests of a service go, and how they are signed there.
#[derive(Debug, Drop)]
pub struct Endpoint {
    pub scheme: Scheme,
    /// As a URL has it: an IPv6 address stands in brackets.
    pub host: Text,
    pub port: u16,
    /// It begins with `/`.
    pub path: Text,
    /// The service in the scope of a signature, where the rules name one.
    pub signing_name: Option<Text>,
    /// The region in the scope of a signature, where the rules name one.
    pub signing_region: Option<Text>,
}

/// The value of a parameter.
#[derive(Debug, Drop)]
pub enum Param {
    Str(Text),
    Flag(bool),
}
