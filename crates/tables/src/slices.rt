// The two ends of a slice, for any count.
ghost use Rattle.std.specs.Prelude.{◌≡◌, take, drop};

// The first items, all of them where there are no more.
pub fn front<T>(items: &[T], count: usize) -> &[T]
    ensures { result.now ≡ take count items.now }
{
    &items[..count.min(items.len())]
}

// The items behind the first ones, none where there are no more.
pub fn rest<T>(items: &[T], count: usize) -> &[T]
    ensures { result.now ≡ drop count items.now }
{
    &items[count.min(items.len())..]
}
