//! Laws of calls, as functions that do nothing.
ghost use Rattle.call_retry.specs.Laws.{CallsAreBounded, CallsEndAlike, ClassesAgree, MessageIsOne, MessagesReadBack, PausesAreShort, QuotaStays};

use http_exchange::requests_read_back;
use serializer::{headers_are_clean, headers_are_named, paths_are_there, targets_are_visible};

/// A call makes no more connections than its limit, and may make none.
pub fn calls_are_bounded()
    ensures { CallsAreBounded }
{}

/// Every attempt of a call sends the one message of its value, unsigned or signed at a moment of its own.
pub fn message_is_one()
    ensures { MessageIsOne }
{}

/// No pause is longer than 20 seconds.
pub fn pauses_are_short()
    ensures { PausesAreShort }
{}

/// The quota stays from 0 to 500.
pub fn quota_stays()
    ensures { QuotaStays }
{}

/// The same attempts at the same quota end alike, with the same quota, unless memory ran out.
pub fn calls_end_alike()
    ensures { CallsEndAlike }
{}

/// What an attempt comes to has the class of its outcome with its error, but for a reply that can't be read, which is
/// final.
pub fn classes_agree()
    ensures { ClassesAgree }
{}

/// Whatever the value is, its message is read by the grammar of requests as its method, its target, its headers and its
/// body, and as nothing else: no value smuggles in another header, another request or another end of the body.
pub fn messages_read_back()
    ensures { MessagesReadBack }
{
    requests_read_back();
    headers_are_clean();
    headers_are_named();
    targets_are_visible();
    paths_are_there();
}
