// The pool of a side and the changes that it adds up: definitions, bounds and laws.
ghost use Rattle.std.specs.Prelude.{◌≡◌};
ghost use Rattle.rules.specs.Fold.{five, at};

// The pool of one side, by schedule.
#[derive(Clone, Copy)]
pub struct SidePool {
    // what its revised payments pay and take back: T is their difference
    pub plus: [u64; 5],
    pub minus: [u64; 5],
    // of its paid steps: B is the greater
    pub rises: [u64; 5],
    pub falls: [u64; 5],
    // how many revised payments differ from their initial ones
    pub differs: [u64; 5],
}

// A step's paid rises and falls, and what its initial payments pay and take back.
#[derive(Clone, Copy)]
pub struct Changes {
    pub rises: [u32; 5],
    pub falls: [u32; 5],
    pub plus: [u64; 5],
    pub minus: [u64; 5],
}

impl Changes {
    // What the step adds to its side's pool, from what its revised payments take back and where they differ from the initial ones.
    pub(crate) fn pool(self, minus: [u64; 5], differs: [u64; 5]) -> SidePool
        ensures { result ≡ record { plus = self.plus; minus = minus; rises = five (at self.rises); falls = five (at self.falls); differs = differs } }
    {
        let Changes {
            rises,
            falls,
            plus,
            ..
        } = self;
        SidePool {
            plus,
            minus,
            rises: rises.map(u64::from),
            falls: falls.map(u64::from),
            differs,
        }
    }
}

// A pool with a step more, and whether an initial payment of that step takes something back.
#[derive(Clone, Copy)]
pub struct PoolStep {
    pub pool: SidePool,
    pub takes: bool,
}
