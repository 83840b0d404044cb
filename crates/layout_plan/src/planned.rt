//! Plans.
ghost use Rattle.std.specs.Prelude.{◌≡◌};
ghost use Rattle.layout_plan.specs.Plans.{Plan};

use crate::part::Placed;
use std::marker::Model;

/// Where the partitions come to stand on a target. Contracts see the record `Plan`.
#[derive(Debug, Drop)]
pub struct Planned {
    parts: Vec<Placed>,
    extra: Option<Placed>,
    limit: u64,
}

impl Model for Planned {
    ghost use Rattle.layout_plan.specs.Plans.{Plan};

    ghost Value = { Plan };

    ghost view = { λ p. record { parts = p.parts.items; extra = p.extra; limit = p.limit } };
}

impl Planned {
    pub(crate) fn new(parts: Vec<Placed>, extra: Option<Placed>, limit: u64) -> Planned
        ensures parts { result.parts ≡ parts.items }
        ensures extra { result.extra ≡ extra }
        ensures limit { result.limit ≡ limit }
    {
        Planned {
            parts,
            extra,
            limit,
        }
    }

    /// The partitions of the source that are made, by rising number in the source.
    pub fn parts(&self) -> &[Placed]
        ensures { result.now ≡ self.now.parts }
    {
        self.parts.as_slice()
    }

    /// The partition that takes what is left over, where one is made.
    pub fn extra(&self) -> Option<Placed>
        ensures { result ≡ self.now.extra }
    {
        self.extra
    }

    /// The end of the last sector that partitions may take.
    pub fn limit(&self) -> u64
        ensures { result ≡ self.now.limit }
    {
        self.limit
    }
}
