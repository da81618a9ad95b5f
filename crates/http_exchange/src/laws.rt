//! Laws of requests and of exchanges one after another, as functions that do nothing.
ghost use Rattle.http_exchange.specs.Exchanges.{ExchangesAreCounted, ExchangesJoin};
ghost use Rattle.http_exchange.specs.ReadBack.{RequestsReadBack};

/// The bytes of a request are read as its method, its target, its headers and its body, and as nothing else, if
/// method and names are tokens, the target is visible ASCII and no control character stands in a value. No header
/// but one `Content-Length` of this client says where the body ends.
pub fn requests_read_back()
    ensures { RequestsReadBack }
{}

/// Some exchanges and then others are all of them.
pub fn exchanges_join()
    ensures { ExchangesJoin }
{}

/// Exchanges leave the connections so far, and add as many as they are.
pub fn exchanges_are_counted()
    ensures { ExchangesAreCounted }
{}
