// Calls on arrays, by their names.
ghost use Rattle.std.specs.Prelude.{◌≡◌};
ghost use Rattle.lucid_parse_spec.specs.ReadExpression.{method_of};

/// The method of a call on an array.
#[derive(Clone, Copy)]
pub enum Method {
    Get,
    Set,
    Getm,
    Setm,
    Update,
}

impl Method {
    /// Returns the call of this name.
    pub fn of(name: &[u8]) -> Option<Method>
        ensures { result ≡ method_of name.now }
    {
        if name == b"get".as_slice() {
            Some(Method::Get)
        } else if name == b"set".as_slice() {
            Some(Method::Set)
        } else if name == b"getm".as_slice() {
            Some(Method::Getm)
        } else if name == b"setm".as_slice() {
            Some(Method::Setm)
        } else if name == b"update".as_slice() {
            Some(Method::Update)
        } else {
            None
        }
    }
}
