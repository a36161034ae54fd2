use model::sheet::Sheet;

// What a file says: its sheet and how many packets it holds.
#[derive(Clone, Copy)]
pub struct Contents {
    pub sheet: Sheet,
    pub count: usize,
}
