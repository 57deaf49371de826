//! A node of a line.
ghost use Rattle.std.specs.Prelude.{◌≡◌, ◌-◌, ◌<◌, ◌≤◌, ◌↔◌, IsTrue, true, false, None, Some, is_some};
ghost use Rattle.std.specs.Bool.{OnTrue};

use band_base::Waker;

/// A request that waits, or what is owed: one without a waker that is linked is a debt. One that was granted
/// is linked no more, needs nothing and has no waker. Ports the `WaitNode` of the Rust crate's semaphore, which
/// has no `ended`.
#[derive(Drop)]
pub struct WaitNode {
    /// How many permits it asks for, or how many were owed when it was made.
    pub size: u64,
    /// How many of them it needs still.
    pub needed: u64,
    /// Whom to wake once it needs no more.
    pub waker: Option<Waker>,
    /// Whether it was ended while it waited. It is linked no more then, and has no waker.
    pub ended: bool,
}

// With its links a node takes 56 bytes of the list.
const _: () = prove!(size_of::<WaitNode>() == 40);

impl WaitNode {
    /// A request that has a share of what it asks for: all but `needed`.
    pub(crate) fn request(size: u64, needed: u64, waker: Waker) -> WaitNode
        ensures { result ≡ record { size = size; needed = needed; waker = Some waker; ended = false } }
    {
        WaitNode {
            size,
            needed,
            waker: Some(waker),
            ended: false,
        }
    }

    /// A debt of which `needed` are to be paid.
    pub(crate) fn debt(size: u64, needed: u64) -> WaitNode
        ensures { result ≡ record { size = size; needed = needed; waker = None; ended = false } }
    {
        WaitNode {
            size,
            needed,
            waker: None,
            ended: false,
        }
    }

    /// A request that was granted.
    pub(crate) fn granted(size: u64) -> WaitNode
        ensures { result ≡ record { size = size; needed = 0; waker = None; ended = false } }
    {
        WaitNode {
            size,
            needed: 0,
            waker: None,
            ended: false,
        }
    }

    /// The same once it was ended: it waits no more.
    pub(crate) fn ended(size: u64, needed: u64) -> WaitNode
        ensures { result ≡ record { size = size; needed = needed; waker = None; ended = true } }
    {
        WaitNode {
            size,
            needed,
            waker: None,
            ended: true,
        }
    }

    /// Tells whether `permits` are all that it needs. Where they are fewer, it has them from now on.
    pub(crate) fn is_served(&mut self, permits: u64) -> bool
        ensures served { IsTrue result ↔ self.old.needed ≤ permits }
        ensures stays { OnTrue result (self.new ≡ self.old) }
        ensures given { result ≡ false → self.new ≡ record self.old { needed = self.old.needed - permits } }
    {
        if self.needed <= permits {
            return true;
        }
        self.needed -= permits;
        false
    }

    /// One that waits leaves a new waker. The answer tells whether it waits.
    pub(crate) fn leaves_waker(&mut self, waker: Waker) -> bool
        ensures waits { result ≡ is_some self.old.waker }
        ensures left { OnTrue result (self.new ≡ record self.old { waker = Some waker }) }
        ensures stays { result ≡ false → self.new ≡ self.old }
    {
        if self.waker.is_none() {
            return false;
        }
        self.waker = Some(waker);
        true
    }
}
