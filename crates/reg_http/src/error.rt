//! Why the engine refuses a request, with the fixed replies that say so, and how a connection fails.
ghost use Rattle.std.specs.Prelude.{◌≡◌};
ghost use Rattle.reg_http.specs.Rendering.{rendered, status_of};

use http::StatusCode;

/// Why a request did not reach the desk, or has no answer. The first that holds, in this order, is the one.
#[derive(Clone, Copy, Debug, PartialEq, Eq)]
pub(crate) enum Refusal {
    /// The bytes begin with no head within the limits.
    BadHead,
    /// The path has no route.
    NoRoute,
    /// The route has not this method.
    Method,
    /// There is not exactly one Authorization field, or it has no known token.
    NoCaller,
    /// A posted body has no Content-Length, or a Transfer-Encoding.
    LengthRequired,
    /// There are several lengths, or one that is not 1 to 10 digits.
    BadLength,
    /// The length is above the limit of a deposit.
    TooLarge,
    /// Project, number or query is not as it has to be.
    BadParameter,
    /// The body ends before its length.
    ShortBody,
    /// An allocation failed. This may come instead of any that follows `BadHead`.
    OutOfMemory,
}

/// A reply that is always the same, as one literal: its status, the length of its body, and what that says.
macro_rules! error_reply {
    ($status:literal, $length:literal, $words:literal) => {
        concat!(
            "HTTP/1.1 ", $status, "\r\nContent-Type: application/json\r\nContent-Length: ", $length,
            "\r\nConnection: close\r\n\r\n{\"error\":\"", $words, "\"}"
        )
    };
}

pub(crate) use error_reply;

impl Refusal {
    /// The status of its reply.
    pub(crate) fn status(self) -> StatusCode
        ensures { result ≡ status_of self }
    {
        match self {
            Refusal::BadHead | Refusal::BadLength => StatusCode::BAD_REQUEST,
            Refusal::BadParameter | Refusal::ShortBody => StatusCode::BAD_REQUEST,
            Refusal::NoRoute => StatusCode::NOT_FOUND,
            Refusal::Method => StatusCode::METHOD_NOT_ALLOWED,
            Refusal::NoCaller => StatusCode::UNAUTHORIZED,
            Refusal::LengthRequired => StatusCode::LENGTH_REQUIRED,
            Refusal::TooLarge => StatusCode::PAYLOAD_TOO_LARGE,
            Refusal::OutOfMemory => StatusCode::SERVICE_UNAVAILABLE,
        }
    }

    /// Its whole reply, which takes no memory.
    #[tactic(auto, unfolding(crate::proofs::Numerals::digits, crate::specs::Replies::phrase_of))]
    pub(crate) fn reply(self) -> &'static str
        ensures { result.now ≡ rendered self }
    {
        match self {
            Refusal::BadHead => error_reply!("400 Bad Request", "20", "bad head"),
            Refusal::NoRoute => error_reply!("404 Not Found", "20", "no route"),
            Refusal::Method => error_reply!("405 Method Not Allowed", "18", "method"),
            Refusal::NoCaller => error_reply!("401 Unauthorized", "21", "no caller"),
            Refusal::LengthRequired => error_reply!("411 Length Required", "27", "length required"),
            Refusal::BadLength => error_reply!("400 Bad Request", "22", "bad length"),
            Refusal::TooLarge => error_reply!("413 Payload Too Large", "21", "too large"),
            Refusal::BadParameter => error_reply!("400 Bad Request", "25", "bad parameter"),
            Refusal::ShortBody => error_reply!("400 Bad Request", "22", "short body"),
            Refusal::OutOfMemory => error_reply!("503 Service Unavailable", "25", "out of memory"),
        }
    }
}

/// Why there is no body.
#[derive(Clone, Copy, Debug, PartialEq, Eq)]
pub(crate) enum BodyFault {
    /// A read failed.
    Read,
    /// The bytes ended early.
    Short,
    /// Memory was refused.
    Memory,
}

/// Which side of a connection failed.
#[derive(Clone, Copy, Debug, PartialEq, Eq)]
pub enum IoFault {
    /// A read failed. Writer and desk are as they were.
    Read,
    /// A write failed. A first part of the reply was written, and the desk is as if the whole reply had been written.
    Write,
}
