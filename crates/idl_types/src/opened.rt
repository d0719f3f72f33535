use xt_lists::Text;

/// A module that is open: the number of its scope, and its name.
#[derive(Debug, Drop)]
pub struct Opened {
    pub number: usize,
    pub name: Text,
}
