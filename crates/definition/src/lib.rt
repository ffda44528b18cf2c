// The types that the definition speaks of: what a public call returns, why one is refused, the build parameters, one answer of a search, and the report of
// recall.
#![tactic(auto)]

ghost use Rattle.std.specs.Prelude.{◌≡◌};
ghost use Rattle.definition.specs.Defaults.{defaults};
ghost use Rattle.definition.specs.Numbers.{number};

// What every public call returns: its number, and the fields that it fills. A search fills the last two: how many entries' rows it walked, and how many
// distances it worked out.
#[repr(C)]
#[derive(Clone, Copy)]
pub struct Answer {
    pub number: u32,
    pub count: usize,
    pub id: u32,
    pub draw: u32,
    pub distance: f32,
    pub expanded: usize,
    pub measured: usize,
}

// Why a call is refused: the check that holds first, under the number that its answer has.
#[derive(Clone, Copy, Debug, PartialEq, Eq)]
pub enum Refusal {
    Dimension = 1,
    Entries = 2,
    Degree = 3,
    Beam = 4,
    Alpha = 5,
    Start = 6,
    Seeds = 7,
    Table = 8,
    Nodes = 9,
    Room = 10,
    Query = 11,
    Pivots = 12,
    Text = 13,
    Nearest = 14,
}

impl From<Refusal> for u32 {
    ghost from_gives = { λ refusal k. k ≡ number refusal };

    fn from(refusal: Refusal) -> u32 {
        refusal as u32
    }
}

// The build parameters.
#[repr(C)]
#[derive(Clone, Copy)]
pub struct Params {
    pub degree: usize,
    pub beam: usize,
    pub alpha: f32,
    pub extra: usize,
}

// The four defaults of 000.
impl Params {
    pub const DEGREE: usize = 64;

    pub const BEAM: usize = 128;

    pub const ALPHA: f32 = 1.2;

    pub const EXTRA: usize = 1;

    pub fn defaults() -> Self
        ensures { result ≡ defaults }
    {
        Self {
            degree: Self::DEGREE,
            beam: Self::BEAM,
            alpha: Self::ALPHA,
            extra: Self::EXTRA,
        }
    }
}

// One answer of a search.
#[repr(C)]
#[derive(Clone, Copy)]
pub struct Candidate {
    pub id: u32,
    pub distance: f32,
}

// What a report returns: its number; how many queries there were, how many entries were asked for, how many of the true nearest the searches brought, and for
// how many queries they brought all.
#[repr(C)]
#[derive(Clone, Copy)]
pub struct Report {
    pub number: u32,
    pub queries: usize,
    pub asked: usize,
    pub found: usize,
    pub whole: usize,
}
