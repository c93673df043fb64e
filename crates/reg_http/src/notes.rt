//! What is noted of a connection while it is served, as a log reports it.
ghost use Rattle.std.specs.Prelude.{◌≡◌};

use crate::request::caller_in;
use crate::request::parts::Parts;
use reg_desk::{Answer, Request};
use reg_policy::{Caller, Callers};

/// Takes notes of a connection while it is served. They change neither desk nor reply: no call of these returns
/// anything. No clause says which of them are made.
pub trait ConnectionNotes {
    /// A head within the limits has come.
    fn head(&mut self, head: &Head<'_>);

    /// The desk has answered a request.
    fn answered(&mut self, request: &Request<'_>, answer: &Answer);

    /// A reply of this status and of so many bytes is written next.
    fn replies(&mut self, status: u16, bytes: usize);
}

/// What a head says of its request.
#[derive(Clone, Copy)]
pub struct Head<'b> {
    pub method: &'b [u8],
    /// The target before the first `?`.
    pub path: &'b str,
    /// Who asks, with the token that shows it; none where no caller has the token.
    pub caller: Option<(&'b Caller, &'b [u8])>,
}

/// What the parts of a head say of its request.
pub(crate) fn head_in<'b>(callers: &'b Callers, parts: &Parts<'b>) -> Head<'b>
    ensures method { result.method.now ≡ parts.now.method.now }
    ensures path { result.path.now ≡ parts.now.path.now }
{
    Head {
        method: parts.method,
        path: parts.path,
        caller: caller_in(callers, parts).ok(),
    }
}

/// No notes at all.
#[derive(Drop)]
pub(crate) struct Unnoted;

impl ConnectionNotes for Unnoted {
    fn head(&mut self, _head: &Head<'_>) {}

    fn answered(&mut self, _request: &Request<'_>, _answer: &Answer) {}

    fn replies(&mut self, _status: u16, _bytes: usize) {}
}
