// Each number of the rules for days, once.

// The most slots of a day.
pub const MOST_SLOTS: usize = 192;

// The largest toll.
pub const TOLL_LIMIT: u32 = 1_000_000_000;

// The numbers of the work table that planning needs: one for each level that has a step.
pub const TABLE_LENGTH: usize = 1023;
