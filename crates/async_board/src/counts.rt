//! For each device, how many of a row of devices it waits for.

ghost use Rattle.std.specs.Prelude.{◌≡◌, ◌<◌, ℕ, true, false, length, slice_index};
ghost use Rattle.sleep_model.specs.Order.{is_among};
ghost use Rattle.sleep_model.proofs.Walks.{AllDifferent};
ghost use Rattle.async_board.specs.Counts.{IsLoweredAt, IsRaisedAt, AreLowered, AreRaised, AreShifted};

/// One less at that index, if it is in range.
fn lower_at(counts: &mut [usize], device: u32)
    requires { device < length counts.old → 0 < slice_index counts.old device }
    ensures { IsLoweredAt device counts.old counts.new }
{
    let place = device as usize;
    if place < counts.len() {
        counts[place] -= 1;
    }
}

/// One more at that index, if it is in range.
fn raise_at(counts: &mut [usize], device: u32)
    requires { device < length counts.old →
        slice_index counts.old device < length counts.old }
    ensures { IsRaisedAt device counts.old counts.new }
{
    let place = device as usize;
    if place < counts.len() {
        counts[place] += 1;
    }
}

/// One less for each of these devices.
#[tactic(auto, using(crate::proofs::Counting::lowered_more, crate::proofs::Counting::lowered_all))]
fn lower(counts: &mut [usize], row: &[u32])
    requires apart { AllDifferent row.now }
    requires some { (d : ℕ) → d < length counts.old → is_among row.now d ≡ true →
        0 < slice_index counts.old d }
    ensures { AreLowered row.now counts.old counts.new }
{
    for device in row {
        lower_at(counts, *device);
    }
}

/// One more for each of these devices.
#[tactic(auto, using(crate::proofs::Counting::raised_more, crate::proofs::Counting::raised_all))]
fn raise(counts: &mut [usize], row: &[u32])
    requires apart { AllDifferent row.now }
    requires few { (d : ℕ) → d < length counts.old → is_among row.now d ≡ true →
        slice_index counts.old d < length counts.old }
    ensures { AreRaised row.now counts.old counts.new }
{
    for device in row {
        raise_at(counts, *device);
    }
}

/// The counts of these devices after one that they may wait for has moved: whether they waited for
/// it, and whether they do now.
pub(crate) fn shift(counts: &mut Vec<usize>, row: &[u32], was: bool, is: bool)
    requires apart { AllDifferent row.now }
    requires some { was ≡ true → (d : ℕ) → d < length counts.old.items →
        is_among row.now d ≡ true → 0 < slice_index counts.old.items d }
    requires few { was ≡ false → is ≡ true → (d : ℕ) → d < length counts.old.items →
        is_among row.now d ≡ true → slice_index counts.old.items d < length counts.old.items }
    ensures { AreShifted row.now was is counts.old.items counts.new.items }
{
    if was && !is {
        lower(counts, row);
    } else if is && !was {
        raise(counts, row);
    }
}
