//! The methods beside GET whose requests are passed on.
ghost use Rattle.std.specs.Prelude.{◌≡◌, IfSome};
ghost use Rattle.http_traffic.specs.Methods.{method_name};

/// A method (RFC 9110, section 9.3; RFC 5789) beside GET whose requests are passed on as they are.
#[derive(Clone, Copy, PartialEq, Eq)]
pub enum PassedMethod {
    Head,
    Post,
    Put,
    Delete,
    Options,
    Patch,
}

impl PassedMethod {
    /// The method as it stands in a request.
    pub fn name(self) -> &'static str
        ensures { result.now ≡ method_name self }
    {
        match self {
            PassedMethod::Head => "HEAD",
            PassedMethod::Post => "POST",
            PassedMethod::Put => "PUT",
            PassedMethod::Delete => "DELETE",
            PassedMethod::Options => "OPTIONS",
            PassedMethod::Patch => "PATCH",
        }
    }

    /// The method of this name, if it is one of them.
    pub fn of(name: &str) -> Option<PassedMethod>
        ensures { IfSome result (λ method. name.now ≡ method_name method) }
    {
        match name {
            "HEAD" => Some(PassedMethod::Head),
            "POST" => Some(PassedMethod::Post),
            "PUT" => Some(PassedMethod::Put),
            "DELETE" => Some(PassedMethod::Delete),
            "OPTIONS" => Some(PassedMethod::Options),
            "PATCH" => Some(PassedMethod::Patch),
            _ => None,
        }
    }
}
