//! The pond's table, three numbers a row (stage, storage, discharge), and one pond step.
#![tactic(auto)]

ghost use Rattle.std.specs.Prelude.{◌≡◌, ◌≤◌, ◌<◌, IfSome};
ghost use Rattle.pond.specs.PondRows.{rows_in, stage, storage, discharge, sum_at, last_sum, last_discharge, lower, between, discharge_at, stage_at, arrived, settled, count_good, row_within, order_good, row_good, first_bad, held_good, first_short};
ghost use Rattle.pond.specs.Needs.{HalfOk, TableOk, PondOk, BetweenOk, ArriveOk};

/// The numbers of a row of the table.
pub const ROW_WIDTH: usize = 3;

/// The rows that a table can have.
pub const MOST_POND_ROWS: usize = 64;

/// What a row leaves in the pond: storage in thousandths of a cubic foot, outflow in thousandths of a cfs.
#[derive(Clone, Copy, Debug, Default, PartialEq, Eq)]
pub struct State {
    pub storage: u64,
    pub outflow: u64,
}

impl State {
    /// X of a row: what the pond holds of the row before, with the inflow volume.
    #[tactic(auto, unfolding(crate::specs::PondRows::arrived))]
    pub fn arrive(self, half: u64, inflow: u64) -> u64
        requires { ArriveOk half self inflow }
        ensures { result ≡ arrived half self inflow }
    {
        self.storage - half * self.outflow + inflow
    }
}

/// What refusal 12 leaves of a pond's table.
#[derive(Clone, Copy, Debug, PartialEq, Eq)]
pub struct Table<'a> {
    pub numbers: &'a [u64],
    pub ghost sound: { TableOk numbers.now },
}

impl<'a> Table<'a> {
    ghost use Rattle.std.specs.Prelude.{IfOk};
    ghost use Rattle.pond.specs.PondRows.{place_of, table_place};

    /// A table that is known to pass refusal 12: nothing is tested.
    pub fn new(numbers: &'a [u64]) -> Table<'a>
        requires { TableOk numbers.now }
        ensures { result.numbers.now ≡ numbers.now }
    {
        Table { numbers }
    }

    /// Refusal 12: the table, or the place that it is refused at, 0 for the count, else the first bad row, from 1.
    #[tactic(auto, using(crate::proofs::Limits::table_ok))]
    pub fn check(numbers: &'a [u64]) -> Result<Table<'a>, usize>
        ensures place { place_of result ≡ table_place numbers.now }
        ensures table { IfOk result (λ t. t.numbers.now ≡ numbers.now) }
    {
        if !count_good(numbers) {
            return Err(0);
        }
        match first_bad(numbers) {
            Some(i) => Err(i + 1),
            None => Ok(Table::new(numbers)),
        }
    }

    /// How many rows the table has.
    pub fn rows(&self) -> usize
        ensures { result ≡ rows_in self.now.numbers.now }
    {
        self.numbers.len() / ROW_WIDTH
    }

    /// The most that a row's outflow may be.
    pub fn last_discharge(&self) -> u64
        ensures { result ≡ last_discharge self.now.numbers.now }
    {
        discharge_of(self.numbers, self.rows() - 1)
    }

    /// The first row that holds less than half a step at its discharge releases.
    pub fn first_short(&self, half: u64) -> Option<usize>
        requires { HalfOk half }
        ensures value { result ≡ first_short half self.now.numbers.now }
        ensures row { IfSome result (λ i. i < rows_in self.now.numbers.now) }
    {
        (0..self.rows()).position(|i| !self.held_good(half, i))
    }

    fn held_good(&self, half: u64, i: usize) -> bool
        requires { HalfOk half × (i < rows_in self.now.numbers.now) }
        ensures { result ≡ held_good half self.now.numbers.now i }
    {
        half * discharge_of(self.numbers, i) <= storage_of(self.numbers, i)
    }
}

/// What refusals 12 and 13 leave of a pond: its table, at half a step.
#[derive(Clone, Copy, Debug, PartialEq, Eq)]
pub struct Pond<'a> {
    pub table: Table<'a>,
    pub half: u64,
    pub ghost sound: { PondOk half table.numbers.now },
}

impl<'a> Pond<'a> {
    ghost use Rattle.std.specs.Prelude.{IfOk};
    ghost use Rattle.pond.specs.PondRows.{place_of, row_place};

    /// A pond that is known to pass refusals 12 and 13: nothing is tested.
    pub fn new(numbers: &'a [u64], half: u64) -> Pond<'a>
        requires { PondOk half numbers.now }
        ensures numbers { result.table.numbers.now ≡ numbers.now }
        ensures half { result.half ≡ half }
    {
        Pond {
            table: Table::new(numbers),
            half,
        }
    }

    /// Refusal 13: the pond, or the first row, from 1, that holds too little.
    pub fn check(table: &Table<'a>, half: u64) -> Result<Pond<'a>, usize>
        requires { HalfOk half }
        ensures place { place_of result ≡ row_place (first_short half table.now.numbers.now) }
        ensures pond { IfOk result (λ v. (v.table ≡ table.now) × (v.half ≡ half)) }
    {
        match table.first_short(half) {
            Some(i) => Err(i + 1),
            None => Ok(Pond {
                table: *table,
                half,
            }),
        }
    }

    /// X of row i.
    #[tactic(auto, unfolding(crate::specs::PondRows::sum_at))]
    pub fn sum_at(&self, i: usize) -> u64
        requires { i < rows_in self.now.table.numbers.now }
        ensures { result ≡ sum_at self.now.half self.now.table.numbers.now i }
    {
        storage_of(self.table.numbers, i) + self.half * discharge_of(self.table.numbers, i)
    }

    /// The most that a step's X may be.
    pub fn last_sum(&self) -> u64
        ensures { result ≡ last_sum self.now.half self.now.table.numbers.now }
    {
        self.sum_at(self.table.rows() - 1)
    }

    /// The lower of the two rows around x: the X rise, so halving finds it in at most 6 rounds of 64 rows. By hand for
    /// speed: `partition_point` on the rows took twice as long.
    pub fn lower(&self, x: u64) -> usize
        ensures { result ≡ lower self.now.half self.now.table.numbers.now x }
    {
        let mut low = 0;
        let mut high = self.table.rows() - 2;
        while low < high {
            let mid = (low + high) / 2;
            if self.sum_at(mid + 1) < x {
                low = mid + 1;
            } else {
                high = mid;
            }
        }
        low
    }

    /// The straight-line discharge at x.
    // This and `stage_at` read one column each: a column to pick would be told in both and at each call.
    #[tactic(auto, using(crate::proofs::Sums::around_at), unfolding(crate::specs::PondRows::discharge_at))]
    pub fn discharge_at(&self, x: u64) -> u64
        requires { x ≤ last_sum self.now.half self.now.table.numbers.now }
        ensures { result ≡ discharge_at self.now.half self.now.table.numbers.now x }
    {
        let i = self.lower(x);
        line(
            x,
            self.sum_at(i),
            self.sum_at(i + 1),
            discharge_of(self.table.numbers, i),
            discharge_of(self.table.numbers, i + 1),
        )
    }

    /// The straight-line stage at x.
    #[tactic(auto, using(crate::proofs::Sums::around_at), unfolding(crate::specs::PondRows::stage_at))]
    pub fn stage_at(&self, x: u64) -> u64
        requires { x ≤ last_sum self.now.half self.now.table.numbers.now }
        ensures { result ≡ stage_at self.now.half self.now.table.numbers.now x }
    {
        let i = self.lower(x);
        line(
            x,
            self.sum_at(i),
            self.sum_at(i + 1),
            stage_of(self.table.numbers, i),
            stage_of(self.table.numbers, i + 1),
        )
    }

    /// The state at X. Storage comes from the balance and not from the table, so that no water is lost to rounding.
    #[tactic(auto, unfolding(crate::specs::PondRows::settled))]
    pub fn settle(&self, x: u64) -> State
        requires { x ≤ last_sum self.now.half self.now.table.numbers.now }
        ensures { result ≡ settled self.now.half self.now.table.numbers.now x }
    {
        let outflow = self.discharge_at(x);
        State {
            storage: x - self.half * outflow,
            outflow,
        }
    }
}

// The definitions are over the flat list, and so are the three readings of a row: `first_bad` reads numbers that are no table yet.
fn stage_of(numbers: &[u64], i: usize) -> u64
    requires { i < rows_in numbers.now }
    ensures { result ≡ stage numbers.now i }
{
    numbers[ROW_WIDTH * i]
}

fn storage_of(numbers: &[u64], i: usize) -> u64
    requires { i < rows_in numbers.now }
    ensures { result ≡ storage numbers.now i }
{
    numbers[ROW_WIDTH * i + 1]
}

fn discharge_of(numbers: &[u64], i: usize) -> u64
    requires { i < rows_in numbers.now }
    ensures { result ≡ discharge numbers.now i }
{
    numbers[ROW_WIDTH * i + 2]
}

/// Multiplied before it is divided, so that only the last digit is lost: the product just fits 64 bits.
fn line(x: u64, x0: u64, x1: u64, y0: u64, y1: u64) -> u64
    requires { BetweenOk x x0 x1 y0 y1 }
    ensures { result ≡ between x x0 x1 y0 y1 }
{
    y0 + (x - x0) * (y1 - y0) / (x1 - x0)
}

/// Whole rows, 2 to 64 of them. Any numbers may stand in the list here and in `first_bad`.
#[tactic(auto, unfolding(crate::specs::PondRows::count_good))]
pub fn count_good(numbers: &[u64]) -> bool
    ensures { result ≡ count_good numbers.now }
{
    let n = numbers.len() / ROW_WIDTH;
    numbers.len() % ROW_WIDTH == 0 && (2 <= n && n <= MOST_POND_ROWS)
}

#[tactic(auto, unfolding(crate::specs::PondRows::row_within))]
fn limits_good(numbers: &[u64], i: usize) -> bool
    requires { i < rows_in numbers.now }
    ensures { result ≡ row_within numbers.now i }
{
    stage_of(numbers, i) <= 1000000
        && (storage_of(numbers, i) <= 1000000000000 && discharge_of(numbers, i) <= 10000000)
}

/// A broken order is charged to the later row, so each row is held against the one before it.
#[tactic(auto, unfolding(crate::specs::PondRows::order_good))]
fn order_good(numbers: &[u64], i: usize) -> bool
    requires { i < rows_in numbers.now }
    ensures { result ≡ order_good numbers.now i }
{
    if i == 0 {
        return storage_of(numbers, 0) == 0 && discharge_of(numbers, 0) == 0;
    }
    let j = i - 1;
    stage_of(numbers, j) < stage_of(numbers, i)
        && (storage_of(numbers, j) < storage_of(numbers, i)
            && discharge_of(numbers, j) <= discharge_of(numbers, i))
}

fn row_good(numbers: &[u64], i: usize) -> bool
    requires { i < rows_in numbers.now }
    ensures { result ≡ row_good numbers.now i }
{
    limits_good(numbers, i) && order_good(numbers, i)
}

/// The first bad row.
pub fn first_bad(numbers: &[u64]) -> Option<usize>
    ensures value { result ≡ first_bad numbers.now }
    ensures row { IfSome result (λ i. i < rows_in numbers.now) }
{
    (0..numbers.len() / ROW_WIDTH).position(|i| !row_good(numbers, i))
}
