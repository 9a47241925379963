//! What stands before, between and behind the items of one list.

/// The texts round the items of one list. Between two items stands the last of the three.
#[derive(Clone, Copy)]
pub struct Joints<'a> {
    pub before: &'a str,
    pub first: &'a str,
    pub middle: &'a str,
    pub last: &'a str,
    pub behind: &'a str,
}
