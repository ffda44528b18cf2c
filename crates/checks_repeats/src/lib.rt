// Whether an id stands twice: one pass over the ids, with little room.
#![tactic(auto)]

ghost use Rattle.std.specs.Prelude.{◌≡◌, not, [], ◌∷◌, length};
ghost use Rattle.definition.specs.Lists.{is_in, distinct};
ghost use Rattle.checks_repeats.specs.Apart.{apart};
ghost use Rattle.checks_repeats.specs.Bits.{Small};

// Whether x stands among the ids. There is no way out of the loop, so that several ids are looked at at once.
pub fn is_among(x: u32, ids: &[u32]) -> bool
    ensures { result ≡ is_in x ids.now }
{
    let mut found = false;
    for &id in ids {
        found |= x == id;
    }
    found
}

// Whether an id stands twice, of as many as there can be: a bit for each, 8 KiB. Ids that follow one another have their bits in different words, so that
// no load waits for the store before it.
pub fn has_repeat(ids: &[u32]) -> bool
    requires { Small ids.now }
    ensures { result ≡ not (distinct ids.now) }
{
    let mut bits = [0u64; 1024];
    for &id in ids {
        let x = id as usize;
        let cell = x % 1024;
        let place = x / 1024;
        let word = bits[cell];
        if (word >> place) % 2 == 1 {
            return true;
        }
        bits[cell] = word | (1 << place);
    }
    false
}

// Whether own stands among the ids of its row, or one of them stands twice. Up to four ids have one mark, and a stamp comes back after 255 rows: where the
// mark is not the stamp, the id is new; where it is, the ids before it are looked through. So it does not matter what the marks hold at first.
pub fn row_repeats(marks: &mut [u8], own: u32, ids: &[u32]) -> bool
    requires { length marks.old ≡ 16384 }
    ensures { result ≡ not (apart (own ∷ []) ids.now) }
{
    let stamp = (own % 255 + 1) as u8;
    marks[(own % 16384) as usize] = stamp;
    for (i, &x) in ids.iter().enumerate() {
        let cell = (x % 16384) as usize;
        if marks[cell] == stamp && (x == own || is_among(x, &ids[..i])) {
            return true;
        }
        marks[cell] = stamp;
    }
    false
}
