//! What is copied where.

/// `count` sectors, from sector `from` of the source to sector `to` of the target; `sparse` says that
/// pieces of zeros are left out.
#[derive(Clone, Copy, Debug, PartialEq, Eq)]
pub struct Transfer {
    pub from: u64,
    pub to: u64,
    pub count: u64,
    pub sparse: bool,
}
