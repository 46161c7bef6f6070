//! What two lists of texts have in common at their ends.
ghost use Rattle.std.specs.Prelude.{◌≡◌, ◌≢◌, ◌+◌, ◌-◌, ◌≤◌, ◌<◌, length, map, true, false, slice_get};
ghost use Rattle.source_document.specs.Exchanges.{AtBack, AtFront};

// Whether a text of one list is the same as one of the other.
fn is_same(old: &[&[u8]], at: usize, new: &[&[u8]], other: usize) -> bool
    requires held { at < length old.now }
    requires there { other < length new.now }
    ensures same { result ≡ true → slice_get (map (λ text. text.now) old.now) at ≡ slice_get (map (λ text. text.now) new.now) other }
    ensures apart { result ≡ false → slice_get (map (λ text. text.now) old.now) at ≢ slice_get (map (λ text. text.now) new.now) other }
{
    old[at] == new[other]
}

/// How many texts are the same at the front of both.
pub(crate) fn common_front(old: &[&[u8]], new: &[&[u8]]) -> usize
    ensures { AtFront (map (λ text. text.now) old.now) (map (λ text. text.now) new.now) result }
{
    let most = old.len().min(new.len());
    for at in 0..most {
        if !is_same(old, at, new, at) {
            return at;
        }
    }
    most
}

/// How many texts are the same at the end of both, after those at the front.
pub(crate) fn common_back(old: &[&[u8]], new: &[&[u8]], front: usize) -> usize
    requires held { front ≤ length old.now }
    requires there { front ≤ length new.now }
    ensures { AtBack (map (λ text. text.now) old.now) (map (λ text. text.now) new.now) front result }
{
    let most = (old.len() - front).min(new.len() - front);
    for at in 0..most {
        if !is_same(old, old.len() - 1 - at, new, new.len() - 1 - at) {
            return at;
        }
    }
    most
}
