// A tag names an arc that is out at a lock-out. It must be handed back: letting one go is refused by the prover.

ghost use Rattle.std.specs.Prelude.{◌≡◌, ℕ};

pub struct Tag {
    arc: usize,
}

impl Drop for Tag {
    // A tag that a lock-out gave names an arc, and there is no arc 0: so none is forgotten.
    fn drop(self)
        requires { self.arc ≡ 0 }
    {
        let Tag { arc: _ } = self;
    }
}

impl Tag {
    // The number of the arc that is out.
    pub fn arc(&self) -> usize
        ensures { result ≡ self.now.arc }
    {
        self.arc
    }

    // Only a lock-out makes a tag.
    pub(crate) fn new(arc: usize) -> Tag
        ensures { result ≡ record { arc = arc } }
    {
        Tag { arc }
    }

    // Only a lock-out spends one. Taken apart here, a tag is not dropped.
    pub(crate) fn spend(self) {
        let Tag { arc: _ } = self;
    }
}
