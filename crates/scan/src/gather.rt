// What a walk through a window makes of the points that it meets.
ghost use Rattle.std.specs.Prelude.{◌≡◌, ℕ, ◌^◌, ◌<◌, T, List, [], ◌∷◌, ◌++◌, length, IfOk, IfErr, MatchBool, MatchResult, OnOk};
ghost use Rattle.zorder.specs.Sharing.{Inside};
ghost use Rattle.refusal.specs.Numbers.{number};
ghost use Rattle.kinds.specs.Kind.{On};

use kinds::kind::PointKind;
use refusal::Refusal;

// Something that is gathered from the points of a window, met one after another in rising code.
pub trait Gather<K: PointKind> {
    // What was gathered and the buffer are right: the buffer as it was at first, the buffer now, and the points met so far.
    ghost met: { Self → List K → List K → List K → Type 0 };

    // The same where the points met are not known, as on a damaged card: the window's corners, the buffer as it was at first, the buffer now.
    ghost fair: { Self → K → K → List K → List K → Type 0 };

    // How many points are passed over before the first one that is wanted. It never changes.
    ghost passes: { Self → ℕ };

    // Whether no further point is wanted.
    fn done(&self) -> bool
        ensures { T result → (before buffer xs ys : List K) → met self.now before buffer xs → met self.now before buffer (xs ++ ys) };

    // Takes points of the window by their number alone, for a buffer of so many places; false where they have to be read.
    fn unread(&mut self, count: u32, places: usize) -> Result<bool, Refusal>
        ensures lawful { (before buffer xs ys : List K) → length buffer ≡ places → length ys ≡ count → length (xs ++ ys) < 2 ^ 32 → met self.old before buffer xs → MatchResult result (λ b. MatchBool b (met self.new before buffer (xs ++ ys)) (met self.new before buffer xs)) (λ e. ⊥) }
        ensures always { (low high : K) (before buffer : List K) → length buffer ≡ places → fair self.old low high before buffer → IfOk result (λ b. fair self.new low high before buffer) }
        ensures refused { IfErr result (λ e. number e ≡ 9) }
        ensures same { passes self.new ≡ passes self.old };

    // Takes a point of the window.
    fn point(&mut self, p: &K, buffer: &mut [K]) -> Result<(), Refusal>
        ensures lawful { (before xs : List K) → length (xs ++ p.now ∷ []) < 2 ^ 32 → met self.old before buffer.old xs → MatchResult result (λ _. met self.new before buffer.new (xs ++ p.now ∷ [])) (λ e. ⊥) }
        ensures always { (low high : K) (before : List K) → On K.PointKind.kind p.now → Inside (K.PointKind.kind.coords low) (K.PointKind.kind.coords high) (K.PointKind.kind.coords p.now) → fair self.old low high before buffer.old → OnOk result (fair self.new low high before buffer.new) }
        ensures refused { IfErr result (λ e. number e ≡ 9) }
        ensures same { passes self.new ≡ passes self.old };
}
