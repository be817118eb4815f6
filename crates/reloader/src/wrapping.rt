//! A body between a beginning and an end, for whatever knows how it begins and ends.
ghost use Rattle.std.specs.Prelude.{◌≡◌, ◌<◌, ◌+◌, ◌-◌, ℕ};
ghost use Rattle.std.specs.Fn.{FnOnceReturnsAtMut};

/// What can be wrapped around a body. Wraps nest, up to 1,000 of them.
pub trait Wrapping {
    // How many wraps are open.
    ghost depth_of: { Self → ℕ };

    // What is left after a wrap has begun.
    ghost begun: { Self → Self };

    // What is left after a wrap has ended.
    ghost ended: { Self → Self };

    /// Opens a wrap.
    fn begin_wrap(&mut self)
        requires { depth_of self.old < 1000 }
        ensures { self.new ≡ begun self.old };

    /// Closes the wrap that was opened last.
    fn end_wrap(&mut self)
        requires { 0 < depth_of self.old }
        ensures { self.new ≡ ended self.old };

    // A wrap that begins is open.
    ghost opens: { (x : Self) → depth_of (begun x) ≡ depth_of x + 1 };

    // A wrap that ends is open no more.
    ghost closes: { (x : Self) → depth_of (ended x) ≡ depth_of x - 1 };

    /// Opens a wrap, runs the body, and closes the wrap, whatever the body gave. The body leaves the depth as it found
    /// it.
    final fn wrap<R, F: FnOnce(&mut Self) -> R>(&mut self, body: F) -> R
        requires depth { depth_of self.old < 1000 }
        requires body { F.IsAlwaysCallable body }
        requires keeps { (given : R) (inside left : Self) → FnOnceReturnsAtMut F.FnOnce body inside given left →
            depth_of left ≡ depth_of inside }
        ensures wrapped { (left : Self) × FnOnceReturnsAtMut F.FnOnce body (begun self.old) result left
            × (self.new ≡ ended left) }
        ensures depth { depth_of self.new ≡ depth_of self.old }
    {
        self.begin_wrap();
        let result = body(self);
        self.end_wrap();
        result
    }
}
