//! What is written is read again.

ghost use Rattle.std.specs.Prelude.{◌≡◌, Ok};
ghost use Rattle.values.specs.declared.message.Request.{Request};
ghost use Rattle.values.specs.declared.message.Response.{Response};
ghost use Rattle.client_msgs.specs.Canonical.{canonical_request, canonical_response};
ghost use Rattle.client_msgs.specs.Reading.{request_of, response_of};
ghost use Rattle.values.specs.Sizes.{IsValid};
ghost use Rattle.client_msgs.specs.Sizes.{FitsRequest, FitsResponse};

/// The canonical bytes of a valid request stand for that request.
pub fn requests_are_read_again()
    ensures { (request : Request) → IsValid request → FitsRequest request → request_of (canonical_request request) ≡ Ok request }
{}

/// The canonical bytes of a response stand for that response.
pub fn responses_are_read_again()
    ensures { (response : Response) → FitsResponse response → response_of (canonical_response response) ≡ Ok response }
{}
