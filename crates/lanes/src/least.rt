// The least of some numbers.
ghost use Rattle.std.specs.Prelude.{◌≡◌, ◌<◌, length};
ghost use Rattle.seats.specs.Peers.{least, others};

/// The least of some numbers, or 0 where there are none.
pub fn least_of(numbers: &[usize]) -> usize
    ensures { result ≡ least numbers.now }
{
    numbers.iter().copied().min().unwrap_or(0)
}

/// The least of all but one.
pub fn least_of_others(numbers: &[usize], seat: usize) -> usize
    requires { seat < length numbers.now }
    ensures { result ≡ least (others seat numbers.now) }
{
    numbers[..seat]
        .iter()
        .chain(numbers[seat + 1..].iter())
        .copied()
        .min()
        .unwrap_or(0)
}
