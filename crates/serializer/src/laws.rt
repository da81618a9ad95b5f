//! What is true of all messages.
ghost use Rattle.serializer.specs.Laws.{ValuesHaveOutcome, HeadersAreClean, HeadersAreNamed, LabelsStayInPlace, ParametersStayInPlace, PathsAreThere, PathsHaveNoQuery, TargetsAreVisible};

/// A value gives one message, or one fault that names a member.
pub fn values_have_outcome()
    ensures { ValuesHaveOutcome }
{}

/// Whatever the value is, no control character of ASCII stands in a header's name or value, if none stands in
/// what the model and the endpoint themselves give.
pub fn headers_are_clean()
    ensures { HeadersAreClean }
{}

/// The name of each header is a token, and none is `Content-Length`, `Connection`, `User-Agent` or
/// `Transfer-Encoding`, which sending a request writes.
pub fn headers_are_named()
    ensures { HeadersAreNamed }
{}

/// Whatever the value is, what fills a label of the path has no `?`, `#`, `&` or `=`, and a `/` only where the label
/// is greedy; all else in the path is the endpoint's and the model's.
pub fn labels_stay_in_place()
    ensures { LabelsStayInPlace }
{}

/// No `?` stands in a path, if none stands in the endpoint's.
pub fn paths_have_no_query()
    ensures { PathsHaveNoQuery }
{}

/// The name and the value of a parameter in the query have no `?`, `#`, `&`, `=` or `/`.
pub fn parameters_stay_in_place()
    ensures { ParametersStayInPlace }
{}

/// The path and the query of a message are visible ASCII, whatever the value is, if the operation's URI and the
/// endpoint's path are.
pub fn targets_are_visible()
    ensures { TargetsAreVisible }
{}

/// No path is empty, if the operation's URI begins with a slash.
pub fn paths_are_there()
    ensures { PathsAreThere }
{}
