// The generator's step, and the draw that a state gives.

ghost use Rattle.std.specs.Prelude.{◌≡◌};
ghost use Rattle.definition.specs.Draws.{advance};
ghost use Rattle.draws.specs.Says.{Drew};

// 2^32: a number of 64 bits has an upper and a lower half of 32.
const HALF: u64 = 4294967296;

// The generator's next state.
pub fn advance(s: u64) -> u64
    ensures { result ≡ advance s }
{
    s.wrapping_mul(6364136223846793005)
        .wrapping_add(1442695040888963407)
}

// The draw below m that a state gives, once advanced: its upper half, scaled. It is 0 for m = 0.
pub fn drawn(m: u32, s: u64) -> u32
    ensures { Drew m s result }
{
    let upper = s / HALF;
    let scaled = upper * u64::from(m);
    let draw = scaled / HALF;
    draw as u32
}
