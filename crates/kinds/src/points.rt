// What every point kind can do, written once.
ghost use Rattle.std.specs.Prelude.{◌≡◌, ℕ, ◌<◌, List, ◌∷◌, map, length, bit_xor};
ghost use Rattle.std.specs.Int.Count.{count_leading_zeros};
ghost use Rattle.std.specs.List.{AllByRecursion};
ghost use Rattle.zorder.specs.Code.{bit_at};
ghost use Rattle.zorder.specs.Sharing.{Inside, Shares, Common};
ghost use Rattle.kinds.specs.Kind.{Whether, On, wide, code_of, size_of, bytes_of, low_corner, high_corner};

use crate::kind::PointKind;
use zorder::weave::shared_bits;

// Whether a point lies in the window of two corners, both ends included.
pub fn inside<K: PointKind>(p: &K, low: &K, high: &K) -> bool
    ensures { Whether result (Inside (K.PointKind.kind.coords low.now) (K.PointKind.kind.coords high.now) (K.PointKind.kind.coords p.now)) }
{
    low.under(p) && p.under(high)
}

// Whether two points are one: their coordinates are equal. No kind has to bring an equality of its own for that.
pub fn same<K: PointKind>(a: &K, b: &K) -> bool
    ensures coordinates { Whether result (K.PointKind.kind.coords a.now ≡ K.PointKind.kind.coords b.now) }
    ensures points { Whether result (a.now ≡ b.now) }
{
    a.under(b) && b.under(a)
}

// The low and the high corner of a point and more.
pub fn corners<K: PointKind>(first: K, more: &[K]) -> (K, K)
    ensures low { K.PointKind.kind.coords result.0 ≡ low_corner K.PointKind.kind (first ∷ more.now) }
    ensures high { K.PointKind.kind.coords result.1 ≡ high_corner K.PointKind.kind (first ∷ more.now) }
{
    let mut low = first;
    let mut high = first;
    for p in more {
        low = low.lower(p);
        high = high.upper(p);
    }
    (low, high)
}

// How many first bits the codes of two points share; of two corners, how many all the codes of their set share.
pub fn depth<K: PointKind>(low: &K, high: &K) -> u32
    requires low_on { On K.PointKind.kind low.now }
    requires high_on { On K.PointKind.kind high.now }
    ensures zeros { result ≡ count_leading_zeros (wide K.PointKind.kind) (bit_xor (code_of K.PointKind.kind low.now) (code_of K.PointKind.kind high.now)) }
    ensures shares { Shares (wide K.PointKind.kind) result (code_of K.PointKind.kind low.now) (code_of K.PointKind.kind high.now) }
    ensures set { (p : K) (ps : List K) → AllByRecursion (On K.PointKind.kind) (p ∷ ps) → K.PointKind.kind.coords low.now ≡ low_corner K.PointKind.kind (p ∷ ps) → K.PointKind.kind.coords high.now ≡ high_corner K.PointKind.kind (p ∷ ps) → Common (wide K.PointKind.kind) result (code_of K.PointKind.kind p) (map (code_of K.PointKind.kind) ps) }
{
    shared_bits(K::BITS, low.code(), high.code())
}

// Bit n of the code: the bit that follows the first n.
pub fn bit<K: PointKind>(p: &K, n: u32) -> u64
    requires on { On K.PointKind.kind p.now }
    requires below { n < wide K.PointKind.kind }
    ensures { result ≡ bit_at (wide K.PointKind.kind) n (code_of K.PointKind.kind p.now) }
{
    (p.code() >> (K::BITS - 1 - n)) % 2
}

// The bytes of points on their axes: as many for each point, and different for different points.
pub fn bytes_stand<K: PointKind>()
    ensures long { (p : K) → On K.PointKind.kind p → length (bytes_of K.PointKind.kind p) ≡ size_of K.PointKind.kind }
    ensures apart { (p q : K) → On K.PointKind.kind p → On K.PointKind.kind q → bytes_of K.PointKind.kind p ≡ bytes_of K.PointKind.kind q → p ≡ q }
{}
