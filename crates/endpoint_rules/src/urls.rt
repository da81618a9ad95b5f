//! URLs: those of endpoints, and the parts that rules see of one.
ghost use Rattle.std.specs.Prelude.{◌≡◌, IfOk};
ghost use Rattle.std.specs.Str.{chars};
ghost use Rattle.endpoint_rules.specs.Free.{lacks_memory};
ghost use Rattle.texts.specs.Calls.{Answers};
ghost use Rattle.endpoint_rules.specs.Urls.{endpoint_of, web_url, scheme_of, usual_port, has_no_user, has_no_tail, is_address, url_value, object_of, slashed};
ghost use Rattle.endpoint_rules.specs.declared.fault.EndpointFault.TheVariants as endpoint_fault;

use crate::endpoint::{Endpoint, Scheme};
use crate::fault::EndpointFault;
use json_doc::{Doc, Pairs};
use rule_terms::{put, put_text};
use std::alloc::Global;
use texts::{OutOfMemory, Text};
use url::{Host, ParseError, Url};

/// The endpoint at a URL (URL Standard): an http or https URL without a user, a query and a fragment.
pub fn endpoint_of(alloc: Global, url: &Text) -> Result<Endpoint, EndpointFault>
    ensures { Answers lacks_memory (λ endpoint. endpoint) result (endpoint_of url.now) }
{
    let Some(url) = web_url(alloc, url.as_str())? else {
        return Err(EndpointFault::BadUrl);
    };
    match scheme_of(&url) {
        Some(scheme) if has_no_user(&url) => Ok(Endpoint {
            scheme,
            host: Text::from_str(alloc, url.host_str().unwrap_or(""))?,
            port: url.port().unwrap_or(usual_port(scheme)),
            path: Text::from_str(alloc, url.path())?,
            signing_name: None,
            signing_region: None,
        }),
        _ => Err(EndpointFault::BadUrl),
    }
}

/// The URL of a text, where it is one, for http or https, without a query and a fragment.
fn web_url(alloc: Global, text: &str) -> Result<Option<Url>, OutOfMemory>
    ensures { IfOk result (λ url. url ≡ web_url text.now) }
{
    match Url::parse(alloc, text) {
        Ok(url) if scheme_of(&url).is_some() && has_no_tail(&url) => Ok(Some(url)),
        Ok(_) => Ok(None),
        Err(ParseError::Overflow | ParseError::OutOfMemory) => Err(OutOfMemory),
        Err(_) => Ok(None),
    }
}

fn scheme_of(url: &Url) -> Option<Scheme>
    ensures { result ≡ scheme_of url.now }
{
    if url.scheme() == "http" {
        return Some(Scheme::Http);
    }
    if url.scheme() == "https" {
        return Some(Scheme::Https);
    }
    None
}

fn usual_port(scheme: Scheme) -> u16
    ensures { result ≡ usual_port scheme }
{
    match scheme {
        Scheme::Http => 80,
        Scheme::Https => 443,
    }
}

fn has_no_user(url: &Url) -> bool
    ensures { result ≡ has_no_user url.now }
{
    url.username().is_empty() && url.password().is_none()
}

/// Whether a URL has neither a query nor a fragment, not even an empty one.
fn has_no_tail(url: &Url) -> bool
    ensures { result ≡ has_no_tail url.now }
{
    url.query().is_none() && url.fragment().is_none()
}

/// A URL as an object, or null where a text is none of http or https without a query and a fragment.
pub fn parse_url(alloc: Global, text: &str) -> Result<Doc, OutOfMemory>
    ensures { IfOk result (λ value. value ≡ url_value text.now) }
{
    match web_url(alloc, text)? {
        Some(url) => object_of(alloc, &url),
        None => Ok(Doc::Null),
    }
}

fn object_of(alloc: Global, url: &Url) -> Result<Doc, OutOfMemory>
    ensures { IfOk result (λ value. value ≡ object_of url.now) }
{
    let mut parts = Pairs::new(alloc);
    put_text(alloc, &mut parts, "scheme", url.scheme())?;
    put_text(alloc, &mut parts, "authority", url.authority())?;
    put_text(alloc, &mut parts, "path", url.path())?;
    put(
        alloc,
        &mut parts,
        "normalizedPath",
        Doc::Str(slashed(alloc, url.path())?),
    )?;
    put(alloc, &mut parts, "isIp", Doc::Flag(is_address(url)))?;
    Ok(Doc::Fields(parts))
}

/// A path with a slash at its end.
fn slashed(alloc: Global, path: &str) -> Result<Text, OutOfMemory>
    ensures { IfOk result (λ text. text ≡ chars (slashed path.now)) }
{
    if path.ends_with('/') {
        return Text::from_str(alloc, path);
    }
    let made = format!(in alloc; "{path}/")?;
    Ok(Text::from_string(made))
}

/// Whether the host is an IP address.
fn is_address(url: &Url) -> bool
    ensures { result ≡ is_address url.now }
{
    matches!(url.host(), Some(Host::Ipv4(_) | Host::Ipv6(_)))
}
