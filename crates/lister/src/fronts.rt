// The lines of a text's front.
ghost use Rattle.std.specs.Prelude.{◌≡◌, ◌+◌, take};
ghost use Rattle.lister.specs.Genlist.{feeds as feeds_of};

use tables::slices::front;

// How many lines end in these bytes.
pub fn feeds(bytes: &[u8]) -> usize
    ensures { result ≡ feeds_of bytes.now }
{
    bytes.iter().filter(|&&b| b == b'\n').count()
}

// A text of so many bytes fills genlist's buffer.
pub(crate) const TOO_LONG: usize = 262144;

// The line of a text's byte number `TOO_LONG`, where it has so many.
pub fn overlong(text: &[u8]) -> usize
    ensures { result ≡ feeds_of (take 262143 text.now) + 1 }
{
    feeds(front(text, TOO_LONG - 1)) + 1
}
