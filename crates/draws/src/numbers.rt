// A small function of numbers.

ghost use Rattle.std.specs.Prelude.{◌≡◌, ◌+◌, ◌%◌, ◌<◌};

// x mod m, where x is below 2m: no division.
pub fn wrapped(x: u32, m: u32) -> u32
    requires { x < m + m }
    ensures { result ≡ x % m }
{
    if x < m { x } else { x - m }
}
