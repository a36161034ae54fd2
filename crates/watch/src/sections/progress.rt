// Where the reading of a payload stands that breaks no rule so far.
#[derive(Clone, Copy, Debug, PartialEq, Eq)]
pub enum Progress {
    // in a section
    Open,
    // past a section's end
    Ended,
    // in the bytes of 255 that fill the rest
    Filling,
}

// How many bytes a section took on, and what they brought.
#[derive(Clone, Copy, Debug, PartialEq, Eq)]
pub struct Taken {
    pub count: usize,
    pub progress: Progress,
}

// What may come after a section's end.
#[derive(Clone, Copy, Debug, PartialEq, Eq)]
pub enum Next {
    Nothing,
    Stuffing,
    More,
}

// What is known of a PID between two packets, while it has broken no rule.
#[derive(Clone, Copy, Debug, PartialEq, Eq)]
pub enum Stage {
    // no payload has started yet
    Unstarted,
    // no section is open
    Between,
    // one is open
    Inside,
}
