/// How many searches, updates and passes a chain has made.
#[derive(Clone, Copy, Debug, PartialEq, Eq)]
pub struct Counts {
    pub searches: u128,
    pub updates: u128,
    pub passes: u128,
}
