//! Labels that rise along a list of ids, with room between for labels of ids that are put in.
ghost use Rattle.std.specs.Prelude.{◌≡◌, ◌<◌, ◌≤◌, ◌*◌, ◌+◌, ◌^◌, ℕ, Some, slice_get, slice_index_or, length, vec_len};
ghost use Rattle.base_index.specs.inside.Labels.{AreLabelled, FitsAt, IsGap};
ghost use Rattle.ti_text.specs.Lists.{AreBelow, AreDistinct};

// Labels stay below this.
const LABEL_END: u64 = 1 << 63;

// The step between labels that are given anew, and the greatest between a new label and the one
// before it.
const LABEL_STEP: u64 = 1 << 32;

// Gives the ids labels anew, far apart.
fn relabel(ids: &[u32], labels: &mut Vec<u64>)
    requires known { AreBelow ids.now (vec_len labels.old) }
    requires distinct { AreDistinct ids.now }
    requires few { length ids.now < 2 ^ 31 }
    ensures len { vec_len labels.new ≡ vec_len labels.old }
    ensures spaced { (i id : ℕ) → slice_get ids.now i ≡ Some id → slice_get labels.new.items id ≡ Some ((i + 1) * LABEL_STEP) }
{
    for (index, id) in ids.iter().enumerate() {
        labels[*id as usize] = (index as u64 + 1) * LABEL_STEP;
    }
}

// The labels of the ids before and after a position between ids, or the ends.
fn gap_at(ids: &[u32], labels: &[u64], position: usize) -> (u64, u64)
    requires known { AreBelow ids.now (length labels.now) }
    requires labelled { AreLabelled ids.now labels.now }
    requires within { position ≤ length ids.now }
    ensures { IsGap ids.now labels.now position result.0 result.1 }
{
    let low = if position > 0 {
        labels[ids[position - 1] as usize]
    } else {
        0
    };
    let high = if position < ids.len() {
        labels[ids[position] as usize]
    } else {
        LABEL_END
    };
    (low, high)
}

/// A label for an id to be put in at a position. If there is no room between its neighbours, all
/// ids get labels anew.
pub(crate) fn make_label(ids: &[u32], labels: &mut Vec<u64>, position: usize) -> u64
    requires known { AreBelow ids.now (vec_len labels.old) }
    requires distinct { AreDistinct ids.now }
    requires labelled { AreLabelled ids.now labels.old.items }
    requires few { length ids.now < 2 ^ 31 }
    requires within { position ≤ length ids.now }
    ensures len { vec_len labels.new ≡ vec_len labels.old }
    ensures labelled { AreLabelled ids.now labels.new.items }
    ensures fits { FitsAt ids.now labels.new.items position result }
{
    let (low, high) = gap_at(ids, labels, position);
    if low + 1 < high {
        return label_within(low, high);
    }
    relabel(ids, labels);
    let (low, high) = gap_at(ids, labels, position);
    label_within(low, high)
}

// A label between two, not far above the lower.
fn label_within(low: u64, high: u64) -> u64
    requires { low + 1 < high }
    ensures above { low < result }
    ensures below { result < high }
{
    low + ((high - low) / 2).min(LABEL_STEP)
}

/// The label of an id, 0 if it has none.
pub(crate) fn label_of(labels: &[u64], id: u32) -> u64
    ensures { result ≡ slice_index_or labels.now id 0 }
{
    labels.get(id as usize).copied().unwrap_or(0)
}
