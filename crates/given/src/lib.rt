// What a batch, close and whole build go by, as one value.
#![tactic(auto)]

ghost use Rattle.std.specs.Prelude.{◌≡◌, ◌+◌, ◌*◌, ◌≤◌, length};
ghost use Rattle.definition.specs.Metric.{vector};

use definition::Params;

// n entries of dim samples, one after another in `vectors`. A row of the wide table has `slack` words, the slack of the parameters' degree.
#[derive(Clone, Copy)]
pub struct Ground<'a> {
    pub n: usize,
    pub dim: usize,
    pub slack: usize,
    pub params: Params,
    pub vectors: &'a [u8],
}

impl<'a> Ground<'a> {
    // The samples of entry i.
    pub fn vector(self, i: usize) -> &'a [u8]
        requires { i * self.dim + self.dim ≤ length self.vectors.now }
        ensures is { result.now ≡ vector self.entry.dim self.entry.vectors.now i }
        ensures size { length result.now ≡ self.entry.dim }
    {
        let at = i * self.dim;
        let end = at + self.dim;
        &self.vectors[at..end]
    }
}
