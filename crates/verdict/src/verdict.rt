use model::rule::Rule;

// The first breach of the endless run: its round, the packet's place in the round, and the rule.
#[derive(Clone, Copy, Debug, PartialEq, Eq)]
pub struct Breach {
    pub round: u32,
    pub packet: usize,
    pub rule: Rule,
}

// What the check says of a reel: nothing against it in any round, or the first breach.
pub type Verdict = Result<(), Breach>;
