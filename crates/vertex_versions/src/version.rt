//! One version of a vertex.

ghost use Rattle.std.specs.Prelude.{◌≡◌};
ghost use Rattle.stamps.specs.Stamps.{is_private};

use graph_model::Payload;
use stamps::Stamp;

/// What a vertex became.
#[derive(Drop)]
pub struct Version {
    /// When it became so.
    pub created: Stamp,
    /// Its payload; none where it was dropped.
    pub content: Option<Payload>,
}

impl Version {
    // Whether it is private to some transaction.
    pub(crate) fn is_private(&self) -> bool
        ensures { result ≡ is_private self.now.created }
    {
        matches!(self.created, Stamp::By(_))
    }
}
