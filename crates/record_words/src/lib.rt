// Values and records as words, for C: a record is as many words as its fields need.
#![tactic(auto)]

pub mod values; // values.rt: values as words
pub mod tables; // tables.rt: the record of each table

// ---- how many words each part of a record is; of a text, eight bytes a word and how many there are

pub const NAME_WORDS: usize = 6;

pub const TEXT_WORDS: usize = 16;

pub const SPAN_WORDS: usize = 2;

pub const TRIPLE_WORDS: usize = 3;

pub const RANGE_WORDS: usize = 1 + TRIPLE_WORDS;

pub const SLOPE_WORDS: usize = 2 * TRIPLE_WORDS;

pub const RAMP_WORDS: usize = 1 + 2 * SLOPE_WORDS + 1;

pub const TABLE_WORDS: usize = 1 + SPAN_WORDS;

// ---- each record, and the answer

pub const COMPONENT_WORDS: usize = 1 + NAME_WORDS + 2 + NAME_WORDS + 3 * TRIPLE_WORDS + SPAN_WORDS;

pub const PIN_WORDS: usize = 3 * NAME_WORDS + 3;

pub const SELECTOR_WORDS: usize = 1 + NAME_WORDS + SPAN_WORDS;

pub const CHOICE_WORDS: usize = NAME_WORDS + TEXT_WORDS;

pub const MODEL_FIRST_WORDS: usize = 1 + NAME_WORDS + 3 + TRIPLE_WORDS;

pub const MODEL_SPLIT_WORDS: usize = 4 * RANGE_WORDS;

pub const MODEL_LEVELS_WORDS: usize = 6 + TRIPLE_WORDS + RANGE_WORDS;

pub const MODEL_TABLES_WORDS: usize = 4 * TABLE_WORDS;

pub const MODEL_LINES_WORDS: usize = MODEL_FIRST_WORDS + MODEL_SPLIT_WORDS + MODEL_LEVELS_WORDS;

pub const MODEL_WORDS: usize = MODEL_LINES_WORDS + MODEL_TABLES_WORDS + RAMP_WORDS + SPAN_WORDS;

pub const WAVEFORM_WORDS: usize = 10 + SPAN_WORDS;

pub const ROW_WORDS: usize = 4;

pub const COUNT_WORDS: usize = 9;

pub const ANSWER_WORDS: usize = COUNT_WORDS + 2 * TEXT_WORDS;
