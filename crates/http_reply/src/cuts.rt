//! Where the heads and the lines of a reply end.
ghost use Rattle.std.specs.Prelude.{◌≡◌, ◌+◌, ◌≤◌, drop, option_map, length, IfSome};
ghost use Rattle.http_reply.specs.Cuts.{empty_line, head_end, line_end};

pub(crate) const CARRIAGE_RETURN: u8 = b'\r';

pub(crate) const LINE_FEED: u8 = b'\n';

/// The length of the empty line that begins at an index.
pub(crate) fn empty_line(bytes: &[u8], at: usize) -> Option<usize>
    requires { at ≤ length bytes.now }
    ensures { result ≡ empty_line (drop at bytes.now) }
{
    let (_, rest) = bytes.split_at(at);
    match rest {
        [LINE_FEED, ..] => Some(1),
        [CARRIAGE_RETURN, LINE_FEED, ..] => Some(2),
        _ => None,
    }
}

/// Where the first head ends. None ends in the bytes before `from`.
pub(crate) fn head_end(bytes: &[u8], from: usize) -> Option<usize>
    requires { head_end bytes.now ≡ option_map (λ n. n + from) (head_end (drop from bytes.now)) }
    ensures end { result ≡ head_end bytes.now }
    ensures within { IfSome result (λ n. n ≤ length bytes.now) }
{
    for at in from..bytes.len() {
        if bytes[at] == LINE_FEED {
            if let Some(size) = empty_line(bytes, at + 1) {
                return Some(at + 1 + size);
            }
        }
    }
    None
}

/// Where the first line ends. None ends in the bytes before `from`.
pub(crate) fn line_end(bytes: &[u8], from: usize) -> Option<usize>
    requires { line_end bytes.now ≡ option_map (λ n. n + from) (line_end (drop from bytes.now)) }
    ensures end { result ≡ line_end bytes.now }
    ensures within { IfSome result (λ n. n ≤ length bytes.now) }
{
    for at in from..bytes.len() {
        if bytes[at] == LINE_FEED {
            return Some(at + 1);
        }
    }
    None
}
