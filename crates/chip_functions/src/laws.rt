//! Laws of bodies alone: no bytes have two values.

ghost use Rattle.std.specs.Prelude.{◌≡◌, ℕ, List};
ghost use Rattle.chip_functions.specs.declared.request.Request.{Request};
ghost use Rattle.chip_functions.specs.declared.response.Response.{Response};
ghost use Rattle.chip_functions.specs.declared.notice.Notice.{Notice};
ghost use Rattle.chip_functions.specs.Request.{IsRequestBody};
ghost use Rattle.chip_functions.specs.Response.{IsResponseBody};
ghost use Rattle.chip_functions.specs.Notice.{IsNoticeBody};

/// A body is at most one request.
pub fn one_request()
    ensures { (func : ℕ) (body : List ℕ) (v w : Request) → IsRequestBody func body v → IsRequestBody func body w → v ≡ w }
{}

/// A body begins with at most one response.
pub fn one_response()
    ensures { (func : ℕ) (body : List ℕ) (v w : Response) → IsResponseBody func body v → IsResponseBody func body w → v ≡ w }
{}

/// A body begins with at most one notice.
pub fn one_notice()
    ensures { (func : ℕ) (body : List ℕ) (v w : Notice) → IsNoticeBody func body v → IsNoticeBody func body w → v ≡ w }
{}
