// 10: the scratch, and the outputs that are no tables, by their lengths.

ghost use Rattle.std.specs.Prelude.{◌≡◌, ◌≤◌};
ghost use Rattle.definition.specs.Refusals.{most_answers};
ghost use Rattle.checks.specs.Lengths.{build_short, search_short_by};

// How many answers a search gives at most.
pub fn most_answers(beam: usize, k: usize) -> usize
    ensures { result ≡ most_answers beam k }
{
    k.min(beam.max(1))
}

// Of a search. `run` is the length of the run of records; where there is none, k, which is never short.
pub fn search_short(
    n: usize,
    beam: usize,
    k: usize,
    words: usize,
    floats: usize,
    ids: usize,
    dists: usize,
    run: usize,
) -> bool
    requires { n ≤ 65536 }
    ensures { result ≡ search_short_by n beam k words floats ids dists run }
{
    let most = most_answers(beam, k);
    words < n + 512 || floats < 512 || ids < most || dists < most || run < most
}

// Of a batch, close or whole build.
pub fn build_short(n: usize, words: usize, floats: usize) -> bool
    requires { n ≤ 65536 }
    ensures { result ≡ build_short n words floats }
{
    words < 6 * n + 32768 || floats < 4 * n + 1024
}
