//! Laws of what is read and put here. A function here has no code: its contract is the law, proved of all bytes.

ghost use Rattle.message_layouts.specs.Laws.{AddressIsReadBack, SpelledAreReadBack, ToldAreTheirs};

/// `controls_of` gives a list of messages exactly where the bytes are those of it.
pub fn told_are_theirs()
    ensures { ToldAreTheirs }
{}

/// The bytes of messages whose fields fit are those of these messages.
pub fn spelled_are_read_back()
    ensures { SpelledAreReadBack }
{}

/// An address that is told of a name, cut to the 110 bytes of `struct sockaddr_un`, has that name.
pub fn address_is_read_back()
    ensures { AddressIsReadBack }
{}
