// Document 01's limits, as specs/Limits.antt has them. Steps and times in seconds, rain in thousandths of an inch, areas in
// hundredths of an acre, inflow volumes in thousandths of a cubic foot.
pub const MOST_ROWS: usize = 2000;

pub const LEAST_STEP: u64 = 60;

pub const MOST_STEP: u64 = 3600;

pub const LAST_NUMBER: u64 = 9007199254740991;

pub const MOST_RAIN: u64 = 30000;

pub const MOST_RISE: u64 = 4000;

pub const MOST_SUBAREAS: usize = 16;

pub const MOST_AREA: u64 = 200000;

pub const MOST_TIME: u64 = 36000;

pub const MOST_WEIGHTS: usize = 512;

pub const MOST_INFLOW: u64 = 217800000000;
