// The sum of products that every study takes, alone: on ordinates and depths that no study has.
ghost use Rattle.std.specs.Prelude.{◌≤◌, OnSome, length};
ghost use Rattle.laws.specs.Limits.{most_weights};
ghost use Rattle.hydrograph.specs.Needs.{Below, most_depth};

use crate::{ABOVE_LIMITS, MOST_DEPTH};
use laws::limits;

// The most that a weight is, in millionths of the peak.
const MOST_WEIGHT: u64 = 1000000;

// Lays the first numbers into a list, 0 for those that are not there; none where one is above the most.
fn laid(numbers: &[u64], count: usize, most: u64, list: &mut [u32]) -> Option<()>
    requires { (count ≤ length list.old) × (most ≤ most_depth) }
    ensures { OnSome result (Below list.new count most) }
{
    for i in 0..count {
        let own = numbers.get(i).copied().unwrap_or(0);
        if own > most {
            return None;
        }
        list[i] = own as u32;
    }
    Some(())
}

// A row sums as many products as its number: entry 0, which is always 0, is in none. A sum above the limits is no figure.
fn summed(ordinates: &[u64], depths: &[u64], row: usize) -> Option<u64>
    requires { row ≤ most_weights }
{
    let mut weights = [0; limits::MOST_WEIGHTS];
    let mut entries = [0; hydrograph::ENTRIES];
    laid(ordinates, row, MOST_WEIGHT, &mut weights)?;
    laid(depths, row + 1, MOST_DEPTH, &mut entries)?;
    let sum = hydrograph::dot(&weights, &entries, row, row);
    if sum < ABOVE_LIMITS { Some(sum) } else { None }
}

// The numbers: the row, how many ordinates, the ordinates, the depths from entry 0 on.
pub(crate) fn sum(n: &[u64]) -> Option<u64> {
    let [row, count, numbers @ ..] = n else {
        return None;
    };
    let most = limits::MOST_WEIGHTS as u64;
    if *row > most || *count > most || *count > numbers.len() as u64 {
        return None;
    }
    let (ordinates, depths) = numbers.split_at(*count as usize);
    summed(ordinates, depths, *row as usize)
}
