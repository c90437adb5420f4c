//! What the calls answer, in words.
ghost use Rattle.std.specs.Prelude.{◌≡◌};
ghost use Rattle.commands.specs.Words.{served_words, heard_words, tick_words};

use master::Heard;
use node::Served;

/// What the node did, in words.
pub fn served_words(served: Served) -> &'static str
    ensures { result.now ≡ served_words served }
{
    match served {
        Served::NothingWaited => "nothing waited",
        Served::Committed => "committed",
        Served::Aborted => "aborted",
        Served::Answered => "answered",
        Served::Dropped => "dropped",
        Served::Kept => "kept",
    }
}

/// What the master did, in words.
pub fn heard_words(heard: Heard) -> &'static str
    ensures { result.now ≡ heard_words heard }
{
    match heard {
        Heard::NothingWaited => "nothing waited",
        Heard::Dropped => "dropped",
        Heard::Over => "over",
        Heard::Sent => "sent",
    }
}

/// What a tick did, in words.
pub fn tick_words(ended: bool) -> &'static str
    ensures { result.now ≡ tick_words ended }
{
    if ended { "ended" } else { "not ended" }
}
