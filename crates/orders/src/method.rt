//! The words for how a value is written.
ghost use Rattle.std.specs.Prelude.{◌≡◌};
ghost use Rattle.orders.specs.Methods.{method_named, name_of};

use master::Method;

/// All methods.
const METHODS: [Method; 3] = [Method::Expedited, Method::Segmented, Method::Block];

/// The method that a word names.
pub fn read_method(word: &[u8]) -> Option<Method>
    ensures { result ≡ method_named word.now }
{
    METHODS
        .into_iter()
        .find(|method| word == method_word(*method).as_bytes())
}

/// The word that names a method.
pub fn method_word(method: Method) -> &'static str
    ensures { result.now ≡ name_of method }
{
    match method {
        Method::Expedited => "expedited",
        Method::Segmented => "segmented",
        Method::Block => "block",
    }
}
