//! What the options with numbers take.

// The numbers that an option takes, and the text that stands for it where it isn't given.
#[derive(Clone, Copy, Drop)]
pub(crate) struct NumberRange {
    pub(crate) low: u32,
    pub(crate) high: u32,
    pub(crate) default: &'static str,
}

pub(crate) const POSTERS: NumberRange = NumberRange {
    low: 1,
    high: 8,
    default: "1",
};

pub(crate) const TAKERS: NumberRange = NumberRange {
    low: 0,
    high: 7,
    default: "0",
};

pub(crate) const STAGES: NumberRange = NumberRange {
    low: 1,
    high: 6,
    default: "2",
};

pub(crate) const ROWS: NumberRange = NumberRange {
    low: 8,
    high: 65535,
    default: "65535",
};

pub(crate) const BUCKETS: NumberRange = NumberRange {
    low: 1,
    high: 256,
    default: "16",
};

pub(crate) const SEED: NumberRange = NumberRange {
    low: 1,
    high: 4294967295,
    default: "1",
};

pub(crate) const LINES: NumberRange = NumberRange {
    low: 1,
    high: 60000,
    default: "20000",
};
