// Part 4, work and frontier in one beam. What the frontier has and work has not was cut from a full work: it is no nearer than the worst, so the walk ends
// before it is reached. So work alone is kept, in 256 keys, and an item is open while its row is not yet walked: the open ones are the frontier.
#![tactic(auto)]

ghost use Rattle.std.specs.Prelude.{◌≡◌, ℕ, ◌+◌, ◌≤◌, ◌<◌, length};
ghost use Rattle.laws.specs.All.{All};
ghost use Rattle.kept.specs.Says.{no_work, bound_k, halts_k, standing, Working, Admitted, Met, Opens, Pops};

// How many items work has, how many of these, the best, are walked, and what the key of a further item must be below to come in.
#[derive(Clone, Copy)]
pub struct Work {
    pub len: usize,
    pub done: usize,
    pub bound: u64,
}

// The best that was open: its id, and how many are walked with it.
#[derive(Clone, Copy)]
pub struct Popped {
    pub id: u32,
    pub done: usize,
}

// No items. With beam 0 none comes in.
pub fn empty(beam: usize) -> Work
    ensures { result ≡ no_work beam }
{
    let bound = if beam == 0 { 0 } else { beam::NONE };
    Work {
        len: 0,
        done: 0,
        bound,
    }
}

// The bound: any key comes in while work is below beam; then its distance must be strictly below the worst's.
fn bound_of(keys: &[u64], len: usize, beam: usize) -> u64
    requires { (0 < len) × (len ≤ length keys.now) }
    ensures { result ≡ bound_k keys.now len beam }
{
    if len < beam {
        return beam::NONE;
    }
    let last = len - 1;
    keys[last] / 4294967296 * 4294967296
}

// An open item, put into work where it is admitted. In a full work the worst leaves.
fn admit(keys: &mut [u64], beam: usize, w: Work, dist: u32, id: u32) -> Work
    requires working { Working beam (standing keys.old w) }
    requires id_bound { id < 65536 }
    ensures { Admitted beam (standing keys.old w) (standing keys.new result) dist id }
{
    let key = beam::key_of(dist, id);
    if key < w.bound {
        let last = if w.len < beam { w.len } else { w.len - 1 };
        let at = beam::put(keys, 0, last, key);
        let len = last + 1;
        return Work {
            len,
            done: w.done.min(at),
            bound: bound_of(keys, len, beam),
        };
    }
    w
}

// New entries, in order: each goes into work where it is admitted.
pub fn meet(keys: &mut [u64], beam: usize, w: Work, ids: &[u32], dists: &[u32]) -> Work
    requires working { Working beam (standing keys.old w) }
    requires all { All (λ (i : ℕ). i < 65536) ids.now }
    requires ids_len { length ids.now ≡ length dists.now }
    ensures { Met beam (standing keys.old w) (standing keys.new result) ids.now dists.now }
{
    let mut s = w;
    for (id, dist) in ids.iter().zip(dists) {
        s = admit(keys, beam, s, *dist, *id);
    }
    s
}

// The place of the best that is open, if there is one. The best `done` are known to be walked.
fn next(keys: &[u64], w: Work) -> Option<usize>
    requires { (w.len ≤ length keys.now) × (w.done ≤ w.len) }
    ensures { Opens keys.now w result }
{
    let open = keys[w.done..w.len].iter().position(|key| *key % 2 != 0)?;
    Some(w.done + open)
}

// Work has at least beam items, and the best that is open is not strictly nearer than the worst.
fn halts(keys: &[u64], beam: usize, w: Work, d: usize) -> bool
    requires { (w.len ≤ length keys.now) × (d < w.len) }
    ensures { result ≡ halts_k keys.now beam w.len d }
{
    if w.len < beam {
        return false;
    }
    let last = w.len - 1;
    beam::dist_of(keys[last]) <= beam::dist_of(keys[d])
}

// The best that is open is closed, if the walk goes on: its row is to be walked.
pub fn pop(keys: &mut [u64], beam: usize, w: Work) -> Option<Popped>
    requires { Working beam (standing keys.old w) }
    ensures { Pops beam (standing keys.old w) keys.new result }
{
    let d = next(keys, w)?;
    if halts(keys, beam, w, d) {
        return None;
    }
    let key = keys[d];
    keys[d] = key - 1;
    Some(Popped {
        id: beam::id_of(key),
        done: d + 1,
    })
}

// The id of the best that is open: the row that is walked next, as far as work is known. Nothing but speed hangs on it.
pub fn ahead(keys: &[u64], w: Work) -> Option<u32>
    requires { (w.len ≤ length keys.now) × (w.done ≤ w.len) }
{
    let d = next(keys, w)?;
    Some(beam::id_of(keys[d]))
}
