//! What holds of all bytes of requests.

ghost use Rattle.qs_http.specs.inner.Laws.{RequestsAreUnique, RequestsAreKept, UnfinishedRequestsAreShort, CutsDoNotMatter};

/// Bytes result in one thing at most: a request, a refusal, or more bytes are wanted.
pub fn requests_are_unique()
    ensures { RequestsAreUnique }
{}

/// Once bytes result in a request or a refusal, further bytes don't change it.
pub fn requests_are_kept()
    ensures { RequestsAreKept }
{}

/// Bytes of which more are wanted are fewer than 4,210,688, which the longest head and the longest body have together.
pub fn unfinished_requests_are_short()
    ensures { UnfinishedRequestsAreShort }
{}

/// However bytes are cut into pieces, a session results in what they result in joined.
pub fn cuts_do_not_matter()
    ensures { CutsDoNotMatter }
{}
