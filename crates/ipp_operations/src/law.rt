//! A law of requests, as the contract of a function that does nothing.
ghost use Rattle.std.specs.Prelude.{◌≡◌, ℕ, List};
ghost use Rattle.ipp_operations.specs.ParsedRequest.{Asks};
ghost use Rattle.ipp_operations.specs.declared.parsed_request.ParsedRequest.{ParsedRequest};

use ipp_codec::{one_first_fault, one_spelling};

/// Two parsed requests of one body are equal.
pub fn one_asked()
    ensures { (body : List ℕ) (given parsed : ParsedRequest) → Asks body given → Asks body parsed → given ≡ parsed }
{
    one_spelling();
    one_first_fault();
}
