// The trait of point kinds.
ghost use Rattle.std.specs.Prelude.{◌≡◌, ℕ, length, IfSome, Some};
ghost use Rattle.std.specs.Int.{int_min, int_max};
ghost use Rattle.zorder.specs.Sharing.{Under, on_each};
ghost use Rattle.kinds.specs.Kind.{Kind, Sound, Whether, On, wide, code_of, size_of, bytes_of};

// A kind of points: its axes, and how its values are points on them. What orders points, and every page, is said by `kind` alone.
pub trait PointKind: Copy {
    ghost BITS: { ℕ };
    // W, the number of bits of a code.
    const BITS: u32;

    ghost CAPACITY: { ℕ };
    // b, the number of points that a data page has room for.
    const CAPACITY: usize;

    ghost SIZE: { ℕ };
    // The number of bytes of a point.
    const SIZE: usize;

    ghost DATA_PAGE: { ℕ };
    // The first byte of a data page.
    const DATA_PAGE: u8;

    ghost DIRECTORY_PAGE: { ℕ };
    // The first byte of a directory page.
    const DIRECTORY_PAGE: u8;

    ghost HEAD_PAGE: { ℕ };
    // The first byte of a head page.
    const HEAD_PAGE: u8;

    ghost kind: { Kind Self };

    // Whether each coordinate lies on its axis.
    fn on_axes(&self) -> bool
        ensures { Whether result (On kind self.now) };

    // The code of a point on its axes. That it lies there is a clause, here and in all code above, and no type of its own:
    // a call is lent any point and tests it once, and each clause that names the point would have to take the type apart.
    fn code(&self) -> u64
        requires { On kind self.now }
        ensures { result ≡ code_of kind self.now };

    // Whether the point is nowhere above another.
    fn under(&self, other: &Self) -> bool
        ensures { Whether result (Under (kind.coords self.now) (kind.coords other.now)) };

    // The smaller coordinate of two points on each axis. Each kind names its own coordinates here and below: one function for `min` and `max` would take the choice as a closure, and be longer.
    fn lower(&self, other: &Self) -> Self
        ensures { kind.coords result ≡ on_each int_min (kind.coords self.now) (kind.coords other.now) };

    // The greater coordinate of two points on each axis.
    fn upper(&self, other: &Self) -> Self
        ensures { kind.coords result ≡ on_each int_max (kind.coords self.now) (kind.coords other.now) };

    // Writes the bytes of the point.
    fn write(&self, out: &mut [u8])
        requires { length out.old ≡ size_of kind }
        ensures { out.new ≡ bytes_of kind self.now };

    // The point on its axes that has these bytes, or none where no point has.
    fn read(bytes: &[u8]) -> Option<Self>
        requires { length bytes.now ≡ size_of kind }
        ensures back { (p : Self) → On kind p → bytes_of kind p ≡ bytes.now → result ≡ Some p }
        ensures only { IfSome result (λ p. On kind p × (bytes_of kind p ≡ bytes.now)) };

    ghost sound: { Sound kind };

    // The constants are the numbers of the kind.
    ghost constants: { (BITS ≡ wide kind) × (CAPACITY ≡ kind.capacity) × (SIZE ≡ size_of kind) × (DATA_PAGE ≡ kind.data_kind) × (DIRECTORY_PAGE ≡ kind.directory_kind) × (HEAD_PAGE ≡ kind.head_kind) };
}
