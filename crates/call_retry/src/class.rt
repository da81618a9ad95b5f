ghost use Rattle.std.specs.Prelude.{◌≡◌};
ghost use Rattle.std.specs.Option.{option_copied};
ghost use Rattle.call_retry.specs.Classes.{class_of, class_of_error, class_of_loss, class_of_reply, is_conflict, is_over_limit, is_retried_code, is_retried_status, is_throttling};

use aws_world::LinkFault;
use http_exchange::Outcome;
use json_doc::Text;
use resp_parser::ServiceError;

/// What an attempt means for a retry.
#[derive(Clone, Copy, Debug, PartialEq, Eq)]
pub enum Class {
    /// All went well.
    Good,
    /// It failed, and no other attempt helps.
    Final,
    /// It failed, and another attempt may go well. It costs so much of the quota.
    Again(u16),
}

/// The class of an outcome (botocore's `_retry.json`), where `error` is the error that its reply tells of. A
/// lost connection, a reply that was cut, and errors of some statuses and codes are tried again.
pub fn class_of(outcome: &Outcome, error: Option<&ServiceError>) -> Class
    ensures { result ≡ class_of outcome.now (option_copied error.entry) }
{
    match outcome {
        Outcome::Whole(_) => class_of_reply(error),
        Outcome::Lost(fault) => class_of_loss(*fault),
        Outcome::Cut => Class::Again(5),
        Outcome::Malformed | Outcome::TooLarge | Outcome::OutOfMemory => Class::Final,
    }
}

/// The class of a whole reply.
fn class_of_reply(error: Option<&ServiceError>) -> Class
    ensures { result ≡ class_of_reply (option_copied error.entry) }
{
    match error {
        None => Class::Good,
        Some(error) => class_of_error(error),
    }
}

/// The class of a lost connection.
pub fn class_of_loss(fault: LinkFault) -> Class
    ensures { result ≡ class_of_loss fault }
{
    match fault {
        LinkFault::Timeout => Class::Again(10),
        LinkFault::Connect | LinkFault::Broken => Class::Again(5),
    }
}

/// The class of an error of the service.
pub fn class_of_error(error: &ServiceError) -> Class
    ensures { result ≡ class_of_error error.now }
{
    if is_retried_status(error.status) || is_retried_code(&error.code) {
        Class::Again(5)
    } else {
        Class::Final
    }
}

/// Whether the service failed, and may answer later.
fn is_retried_status(status: u16) -> bool
    ensures { result ≡ is_retried_status status }
{
    status == 500 || status == 502 || status == 503 || status == 504
}

fn is_retried_code(code: &Text) -> bool
    ensures { result ≡ is_retried_code code.now }
{
    is_conflict(code) || is_throttling(code) || is_over_limit(code)
}

/// Whether the request came too late, or while another was worked on.
fn is_conflict(code: &Text) -> bool
    ensures { result ≡ is_conflict code.now }
{
    code.is("RequestTimeout")
        || code.is("RequestTimeoutException")
        || code.is("PriorRequestNotComplete")
        || code.is("TransactionInProgressException")
}

/// Whether requests come too fast.
fn is_throttling(code: &Text) -> bool
    ensures { result ≡ is_throttling code.now }
{
    code.is("Throttling")
        || code.is("ThrottlingException")
        || code.is("ThrottledException")
        || code.is("RequestThrottledException")
        || code.is("RequestThrottled")
        || code.is("EC2ThrottledException")
        || code.is("TooManyRequestsException")
        || code.is("SlowDown")
}

/// Whether a limit was passed.
fn is_over_limit(code: &Text) -> bool
    ensures { result ≡ is_over_limit code.now }
{
    code.is("ProvisionedThroughputExceededException")
        || code.is("RequestLimitExceeded")
        || code.is("BandwidthLimitExceeded")
        || code.is("LimitExceededException")
}
