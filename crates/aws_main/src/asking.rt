ghost use Rattle.std.specs.Prelude.{◌≡◌};
ghost use Rattle.aws_main.specs.Words.{is_option_word, port_of, address_of, call_of, asked_of, Gives};

use crate::causes::Unbuilt;
use aws_world::Target;
use json_doc::Text;
use std::alloc::Global;

/// The port that a URL of HTTP has where it names none (RFC 9110, section 4.2.1).
const HTTP_PORT: u16 = 80;

/// What the words of a line ask for.
#[derive(Debug, Drop)]
pub struct Asked {
    pub service: Text,
    /// The operation's name on the command line.
    pub command: Text,
    pub target: Target,
    /// The host with its port, as the header `Host` has it.
    pub host: Text,
}

/// Reads a line: SERVICE OPERATION `--no-sign-request` `--endpoint-url` URL.
pub fn read_words(alloc: Global, words: &[Text]) -> Result<Asked, Unbuilt>
    ensures { Gives (asked_of words.now) result }
{
    let [service, command, unsigned, endpoint, url] = words else {
        return Err(Unbuilt::NotBuilt);
    };
    if !unsigned.is("--no-sign-request") || !endpoint.is("--endpoint-url") {
        return Err(Unbuilt::NotBuilt);
    }
    read_call(alloc, service, command, url)
}

/// What SERVICE OPERATION and URL ask for.
fn read_call(alloc: Global, service: &Text, command: &Text, url: &Text) -> Result<Asked, Unbuilt>
    ensures { Gives (call_of service.now command.now url.now) result }
{
    if is_option_word(service.as_str()) || is_option_word(command.as_str()) {
        return Err(Unbuilt::NotBuilt);
    }
    let (host, target) = address(alloc, url.as_str())?;
    Ok(Asked {
        service: service.copy(alloc)?,
        command: command.copy(alloc)?,
        target,
        host,
    })
}

/// Whether a word is an option: `--` and more.
fn is_option_word(word: &str) -> bool
    ensures { result ≡ is_option_word word.now }
{
    word.starts_with("--") && word.len() > 2
}

/// Host and target of `http://127.0.0.1:P` or `http://localhost:P`, where P is a port as `port_of`
/// reads it.
fn address(alloc: Global, url: &str) -> Result<(Text, Target), Unbuilt>
    ensures { Gives (address_of url.now) result }
{
    let Some(authority) = url.strip_prefix("http://") else {
        return Err(Unbuilt::NotBuilt);
    };
    let Some((host, digits)) = authority.split_once(':') else {
        return Err(Unbuilt::NotBuilt);
    };
    if host != "127.0.0.1" && host != "localhost" {
        return Err(Unbuilt::NotBuilt);
    }
    let Some(port) = port_of(digits) else {
        return Err(Unbuilt::NotBuilt);
    };
    let target = Target {
        host: Text::from_str(alloc, host)?,
        port,
    };
    Ok((Text::from_str(alloc, authority)?, target))
}

/// A port from 1 to 65535 without a leading zero, and not 80.
fn port_of(digits: &str) -> Option<u16>
    ensures { result ≡ port_of digits.now }
{
    if digits.starts_with('0') || !digits.bytes().all(|b| b.is_ascii_digit()) {
        return None;
    }
    match digits.parse::<u16>() {
        Ok(port) if port != HTTP_PORT => Some(port),
        _ => None,
    }
}
