//! Why a cookie is not accepted.

use thiserror::Error;

/// A cookie is not one that the server made itself for this client, or its time is over (RFC 9018 section 4).
#[derive(Clone, Copy, Debug, PartialEq, Eq, Hash, Error)]
#[error("A DNS cookie could not be verified")]
pub struct CookieError;
