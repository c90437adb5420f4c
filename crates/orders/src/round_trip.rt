//! What is written of orders is read as these orders.
ghost use Rattle.orders.specs.Written.{LinesReadBack, TextsReadBack};

/// States that orders in their plain written form, a line or a whole text of them, read back as themselves: with the method that is
/// named, or with the one for the length where none is.
pub fn orders_read_back()
    ensures lines { LinesReadBack }
    ensures texts { TextsReadBack }
{}
