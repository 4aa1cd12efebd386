// Runoff depths of a curve number in tenths, one by one and in lists.
ghost use Rattle.std.specs.Prelude.{◌≡◌, ℕ, ◌+◌, ◌-◌, ◌≤◌, ◌<◌, length};
ghost use Rattle.laws.specs.Limits.{most_rows};
ghost use Rattle.laws.specs.Listed.{rows_from};
ghost use Rattle.curve.specs.Needs.{CurveOk};
ghost use Rattle.hydrograph.specs.InflowRows.{runoff_at};
ghost use Rattle.hydrograph.specs.Needs.{RainOk};

// a less b, 0 where b is more. Kept for its promise (docs/PROMISES.md): the code itself calls std's.
pub fn less(a: usize, b: usize) -> usize
    ensures { result ≡ a - b }
{
    a.saturating_sub(b)
}

// Q at t: the runoff of rain entry t, the last one's from the rain's end on.
pub fn depth_at(tenths: u64, rain: &[u64], t: usize) -> u64
    requires { CurveOk tenths × RainOk rain.now }
    ensures { result ≡ runoff_at tenths rain.now t }
{
    let last = rain.len() - 1;
    if t < last {
        runoff::depth(tenths, rain[t])
    } else {
        runoff::depth(tenths, rain[last])
    }
}

// Q at t from Q at t - 1, which stays where no rain falls.
fn depth_after(tenths: u64, rain: &[u64], t: usize, last: u64) -> u64
    requires { CurveOk tenths × (RainOk rain.now × ((1 ≤ t) × (last ≡ runoff_at tenths rain.now (t - 1)))) }
    ensures { result ≡ runoff_at tenths rain.now t }
{
    if t >= rain.len() {
        return last;
    }
    if rain[t] == rain[t - 1] {
        return last;
    }
    runoff::depth(tenths, rain[t])
}

// Fills a list with Q at `first` - `back`, at the next, and so on; Q at 0 while `back` is more.
pub fn fill_depths(tenths: u64, rain: &[u64], first: usize, back: usize, list: &mut [u64])
    requires { CurveOk tenths × (RainOk rain.now × ((1 ≤ first) × ((first ≤ 10000) × ((back ≤ 10000) × ((1 ≤ length list.old) × (length list.old ≤ most_rows)))))) }
    ensures { list.new ≡ rows_from (λ (k : ℕ). runoff_at tenths rain.now (k - back)) first (length list.old) }
{
    let mut last = depth_at(tenths, rain, first.saturating_sub(back));
    list[0] = last;
    // By place: the first depth is found by itself, each next one from that before it.
    for i in 1..list.len() {
        let k = first + i;
        if back < k {
            last = depth_after(tenths, rain, k - back, last);
        }
        list[i] = last;
    }
}
